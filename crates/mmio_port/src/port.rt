// A port, as a place and as what the machine sets up.
ghost use Rattle.std.specs.Prelude.{◌≡◌, true, if◌then◌else◌, Some, None};
ghost use Rattle.port_table.specs.Acts as acts;
ghost use Rattle.port_table.specs.Kept as kept;
ghost use Rattle.port_table.specs.Ports as ports;
ghost use Rattle.port_table.specs.Window as window;
ghost use Rattle.vm_types.specs.declared.ids.ActorId.{ActorId};
ghost use Rattle.vm_types.specs.declared.op.Op.TheVariants as ops;
ghost use Rattle.vm_types.specs.declared.reply.Reply.{Reply};

use crate::config::put_config;
use crate::queues::{queue_shown, take_kicks};
use crate::registers::{DRIVER_OK, NEEDS_RESET, as_new, has_bits, port_of};
use crate::valid::is_state;
use crate::window::{read_bytes, write_bytes};
use port_table::{DeviceKind, Feature, PORT_SIZE, PortState};
use std::marker::Model;
use vm_types::{Accepted, ActorId, GuestAddr, Op, Piece, Place, PortLook, PortOp, Reply};

/// Bit 1 of InterruptStatus: the configuration changed (VIRTIO 1.2, 4.2.2).
const CONFIGURATION_CHANGE: u64 = 2;

/// The port of a device: its registers and its configuration (VIRTIO 1.2, 4.2).
#[derive(Drop)]
pub struct Port {
    state: PortState,
}

impl Model for Port {
    ghost use Rattle.std.specs.Prelude.{◌≡◌, true};
    ghost use Rattle.port_table.specs.Kept.{is_state};
    ghost use Rattle.port_table.specs.declared.state.PortState.{PortState};

    ghost Value = { PortState };

    ghost view = { λ p. p.state };

    ghost invariant = { λ p. is_state p.state ≡ true };
}

fn is_in_one(at: GuestAddr, len: usize) -> bool
    ensures { result ≡ window.is_in_one at len }
{
    len as u64 <= PORT_SIZE - at % PORT_SIZE
}

// What every new device offers of its queues.
fn queue_features() -> u64
    ensures { result ≡ ports.queue_features }
{
    Feature::IndirectDescriptors.mask() | Feature::EventIndex.mask()
}

// Whether a feature is offered and the driver wrote its bit.
fn is_accepted(state: &PortState, feature: Feature) -> bool
    ensures { result ≡ acts.is_accepted state.now feature }
{
    has_bits(state.accepted & state.offered, feature.mask())
}

fn accepted_shown(state: &PortState) -> Accepted
    ensures { result ≡ acts.accepted_shown state.now }
{
    Accepted {
        indirect: is_accepted(state, Feature::IndirectDescriptors),
        event_index: is_accepted(state, Feature::EventIndex),
    }
}

fn port_shown(state: &PortState, was_reset: bool) -> PortLook
    ensures { result ≡ acts.port_shown was_reset state.now }
{
    PortLook {
        first: queue_shown(&state.queues[0]),
        second: queue_shown(&state.queues[1]),
        third: queue_shown(&state.queues[2]),
        accepted: accepted_shown(state),
        status: state.status,
        was_reset,
    }
}

fn look(state: &mut PortState) -> PortLook
    ensures reply { Reply.Port result ≡ (acts.look state.old).0 }
    ensures value { state.new ≡ (acts.look state.old).1 }
{
    if state.is_reset_asked {
        *state = as_new(state);
        return port_shown(state, true);
    }
    let shown = port_shown(state, false);
    take_kicks(state);
    shown
}

fn interrupt(state: &mut PortState, causes: u64)
    ensures { state.new ≡ acts.interrupted state.old causes }
{
    state.interrupt_status |= (causes % 0x1_0000_0000) as u32;
}

fn break_down(state: &mut PortState) -> Reply
    ensures reply { result ≡ (acts.broken state.old).0 }
    ensures value { state.new ≡ (acts.broken state.old).1 }
{
    let is_driven = has_bits(state.status as u64, DRIVER_OK as u64);
    state.status |= NEEDS_RESET;
    if is_driven {
        interrupt(state, CONFIGURATION_CHANGE);
        Reply::Word(1)
    } else {
        Reply::Word(0)
    }
}

fn configure(state: &mut PortState, bytes: &[u8])
    ensures { state.new ≡ acts.configured state.old bytes.now }
{
    interrupt(state, CONFIGURATION_CHANGE);
    let kind = state.kind;
    put_config(kind, &mut state.config, bytes);
    state.config_generation = state.config_generation.wrapping_add(1);
}

fn acted(state: &mut PortState, act: &PortOp) -> Reply
    ensures reply { result ≡ (acts.port_act state.old act.now).0 }
    ensures value { state.new ≡ (acts.port_act state.old act.now).1 }
{
    match act {
        PortOp::Look => Reply::Port(look(state)),
        PortOp::Interrupt { causes } => {
            interrupt(state, *causes);
            Reply::Done
        }
        PortOp::Break => break_down(state),
    }
}

impl Port {
    /// The port of a device as a machine starts with it: it offers these features, with VIRTIO_F_VERSION_1 among them,
    /// and these bytes are the first of its configuration, the others 0. Of more bytes than such a device has the first
    /// ones count.
    #[tactic(auto, using(port_table::proofs::Kept::new_kept))]
    pub fn new(kind: DeviceKind, offered: u64, config: &[u8]) -> Port
        ensures { result ≡ ports.new_port kind offered config.now }
    {
        let mut bytes = [0; 8];
        put_config(kind, &mut bytes, config);
        Port {
            state: port_of(kind, offered | queue_features(), bytes),
        }
    }

    /// The port that is in this state, where one may be in it.
    pub fn from_state(state: PortState) -> Option<Port>
        ensures { result ≡ (if kept.is_state state then Some state else None) }
    {
        if is_state(&state) {
            Some(Port { state })
        } else {
            None
        }
    }

    /// What it keeps, which is a state that it may be in.
    pub fn state(&self) -> &PortState
        ensures state { result.now ≡ self.now }
        ensures is { kept.is_state self.now ≡ true }
    {
        &self.state
    }

    /// These bytes become the first of the configuration, and the driver is told: InterruptStatus has a configuration
    /// change, and ConfigGeneration is one higher, modulo 2^32. Of more bytes than such a device has the first ones
    /// count.
    #[tactic(auto, using(port_table::proofs::Kept::configured_kept))]
    pub fn configure(&mut self, config: &[u8])
        ensures { self.new ≡ acts.configured self.old config.now }
    {
        configure(&mut self.state, config);
    }

    #[tactic(auto, using(port_table::proofs::Kept::act_kept))]
    fn port_act(&mut self, act: &PortOp) -> Reply
        ensures reply { result ≡ (acts.port_act self.old act.now).0 }
        ensures value { self.new ≡ (acts.port_act self.old act.now).1 }
    {
        acted(&mut self.state, act)
    }

    fn read(&self, at: GuestAddr, len: usize) -> Reply
        ensures { result ≡ (acts.touch self.now ActorId.Timer (ops.Read at len)).0 }
    {
        if len <= Piece::MOST && is_in_one(at, len) {
            Reply::Bytes(read_bytes(&self.state, at % PORT_SIZE, len))
        } else {
            Reply::AccessFault
        }
    }

    #[tactic(auto, using(port_table::proofs::Kept::bytes_kept))]
    fn write(&mut self, at: GuestAddr, piece: &Piece) -> Reply
        ensures reply { result ≡ (acts.touch self.old ActorId.Timer (ops.Write at piece.now)).0 }
        ensures value { self.new ≡ (acts.touch self.old ActorId.Timer (ops.Write at piece.now)).1 }
    {
        if is_in_one(at, piece.len()) {
            write_bytes(&mut self.state, at % PORT_SIZE, piece.as_slice());
            Reply::Done
        } else {
            Reply::AccessFault
        }
    }
}

impl Place for Port {
    ghost use Rattle.port_table.specs.Acts.{is_port_op, touch};
    ghost use Rattle.port_table.specs.Fitting.{port_reply_fits};
    ghost use Rattle.port_table.specs.declared.state.PortState.{PortState};

    ghost Value = { PortState };

    ghost value = { λ p. p };

    ghost touch = { touch };

    ghost serves = { is_port_op };

    ghost replies_fit = { port_reply_fits };

    fn act(&mut self, actor: ActorId, op: &Op) -> Reply {
        match op {
            Op::Port { port: _, act } => self.port_act(act),
            Op::Read { at, len } => self.read(*at, *len),
            Op::Write { at, piece } => self.write(*at, piece),
            _ => Reply::AccessFault,
        }
    }
}
