// Where an op acts.
ghost use Rattle.std.specs.Prelude.{◌≡◌, ◌≤◌, ◌^◌};
ghost use Rattle.flat_guest.specs.Places as places;

use board_table::is_window;
use guest_memory::{access_place, width_of};
use port_table::port_at;
use vm_types::{GuestAddr, Op, PlaceId};

/// What there is to act on, beside the board: so many bytes of RAM, and the ports of so many devices, by their
/// numbers from 0.
#[derive(Clone, Copy, Drop)]
pub struct Layout {
    pub memory_size: usize,
    pub ports: u8,
}

fn are_registers(at: GuestAddr, len: usize) -> bool
    ensures { result ≡ places.are_registers at len }
{
    1 <= len && is_window(at, len)
}

// The port that has all bytes of an access, whether it is there or not.
fn port_accessed(op: &Op) -> Option<u8>
    ensures { result ≡ places.port_accessed op.now }
{
    match op {
        Op::Read { at, len } => port_at(*at, *len),
        Op::Write { at, piece } => port_at(*at, piece.len()),
        Op::Amo { at, wide, .. } | Op::Lr { at, wide } | Op::Sc { at, wide, .. } => {
            port_at(*at, width_of(*wide))
        }
        _ => None,
    }
}

fn port_place(ports: u8, port: u8) -> PlaceId
    ensures { result ≡ places.port_place ports port }
{
    if port < ports {
        PlaceId::Port(port)
    } else {
        PlaceId::Out
    }
}

fn is_register_access(op: &Op) -> bool
    ensures { result ≡ places.is_register_access op.now }
{
    match op {
        Op::Read { at, len } => are_registers(*at, *len),
        Op::Write { at, piece } => are_registers(*at, piece.len()),
        Op::Amo { at, wide, .. } | Op::Lr { at, wide } | Op::Sc { at, wide, .. } => {
            are_registers(*at, width_of(*wide))
        }
        _ => false,
    }
}

/// The place of an op, where there is so much; the memory has at most 2^40 bytes. An access that isn't inside one page
/// of RAM, the board's registers or a port that is there, an act on a port that isn't, an act on a host object and a wait
/// have none: they are at `Out`.
pub fn place(layout: Layout, op: &Op) -> PlaceId
    requires { layout.memory_size ≤ 2 ^ 40 }
    ensures { result ≡ places.place_of layout op.now }
{
    match op {
        Op::Port { port, act: _ } => port_place(layout.ports, *port),
        Op::Board(_) => PlaceId::Board,
        _ => if is_register_access(op) {
            PlaceId::Board
        } else if let Some(port) = port_accessed(op) {
            port_place(layout.ports, port)
        } else {
            access_place(layout.memory_size, op)
        },
    }
}
