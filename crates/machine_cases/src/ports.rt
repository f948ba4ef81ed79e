// What ports are answered: an act and its reply, a new port, and another configuration.
mod shown;

use crate::ports::shown::add_reply;
use crate::words::{Numbers, number, parted, piece_from};
use mmio_port::Port;
use port_table::{DeviceKind, PORTS_START};
use std::alloc::{AllocError, Global};
use vm_types::{ActorId, AmoKind, Op, Place, PortOp};

/// The port that a table begins with.
pub fn first() -> Port {
    Port::new(DeviceKind::Block, 0, &[])
}

/// Puts the reply to an act at the end, or `-` where the port is another one then.
pub fn add(
    alloc: Global,
    port: &mut Port,
    command: &str,
    text: &mut String,
) -> Result<(), AllocError> {
    match op_from(command) {
        Some(op) => add_reply(alloc, text, &port.act(ActorId::Device(0), &op)),
        None => text.push_str(match change(port, command) {
            Some(()) => "-",
            None => "none",
        }),
    }
}

// `port KIND OFFERED CONFIGURATION` or `configure BYTES`.
fn change(port: &mut Port, command: &str) -> Option<()> {
    match command.strip_prefix("port ") {
        Some(given) => *port = new_port(given)?,
        None => {
            let digits = command.strip_prefix("configure ")?;
            port.configure(piece_from(digits)?.as_slice());
        }
    }
    Some(())
}

// A kind of device by its name, features, and bytes in hexadecimal digits.
fn new_port(given: &str) -> Option<Port> {
    let mut words = given.split(' ');
    let kind = kind_of(words.next()?)?;
    let offered = number(words.next())?;
    let config = piece_from(words.next()?)?;
    Some(Port::new(kind, offered, config.as_slice()))
}

fn kind_of(name: &str) -> Option<DeviceKind> {
    match name {
        "net" => Some(DeviceKind::Net),
        "block" => Some(DeviceKind::Block),
        "balloon" => Some(DeviceKind::Balloon),
        "vsock" => Some(DeviceKind::Vsock),
        "entropy" => Some(DeviceKind::Entropy),
        _ => None,
    }
}

// `read OFFSET LENGTH`, `write OFFSET BYTES`, `reserve`, `store` and `swap OFFSET`, `look`, `interrupt CAUSES` and
// `break`, with numbers and bytes in hexadecimal digits.
fn op_from(command: &str) -> Option<Op> {
    match command.strip_prefix("write ") {
        Some(rest) => {
            let (offset, digits) = rest.split_once(' ')?;
            Some(Op::Write {
                at: PORTS_START.saturating_add(number(Some(offset))?),
                piece: piece_from(digits)?,
            })
        }
        None => {
            let (name, numbers) = parted(command)?;
            op_of(name, numbers)
        }
    }
}

fn op_of(name: &str, Numbers { a, b, .. }: Numbers) -> Option<Op> {
    let at = PORTS_START.saturating_add(a);
    match name {
        "read" => Some(Op::Read {
            at,
            len: b as usize,
        }),
        "reserve" => Some(Op::Lr { at, wide: false }),
        "store" => Some(Op::Sc {
            at,
            value: 0,
            wide: false,
        }),
        "swap" => Some(Op::Amo {
            at,
            value: 0,
            kind: AmoKind::Swap,
            wide: false,
        }),
        "look" => Some(port_op(PortOp::Look)),
        "interrupt" => Some(port_op(PortOp::Interrupt { causes: a })),
        "break" => Some(port_op(PortOp::Break)),
        "idle" => Some(Op::Idle),
        _ => None,
    }
}

fn port_op(act: PortOp) -> Op {
    Op::Port { port: 0, act }
}
