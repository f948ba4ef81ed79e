// A device with queues in a state that it may be in.
ghost use Rattle.std.specs.Prelude.{◌≡◌, true, if◌then◌else◌, Some, None};
ghost use Rattle.device_trace.specs.Script.{Ends};
ghost use Rattle.device_trace.specs.States.{changed_at, stepped, wants};
ghost use Rattle.vm_types.specs.Fits.{fits};
ghost use Rattle.queue_device.specs.declared.phase.Phase.TheVariants.{Between};
ghost use Rattle.queue_device.specs.declared.phase.Work.TheVariants as work;
ghost use Rattle.queue_device.specs.Kept as kept;
ghost use Rattle.queue_device.specs.Lanes.{new_rounds};
ghost use Rattle.queue_device.specs.Left.{left_at, queued};
ghost use Rattle.queue_device.specs.Rounds.{queue_rules};

use crate::device::QueueRounds;
use crate::kind::Kind;
use crate::valid::is_state;
use std::marker::Model;
use vm_types::{Actor, Op, Reply, is_fit};

/// A device with queues of one kind, in a state that it may be in. Contracts see it as all that it keeps.
#[derive(Drop)]
pub struct QueueDevice<K: Kind> {
    state: QueueRounds<K>,
}

impl<K: Kind> Model for QueueDevice<K> {
    ghost use Rattle.std.specs.Prelude.{◌≡◌, true};
    ghost use Rattle.queue_device.specs.declared.device.QueueRounds.{QueueRounds};
    ghost use Rattle.queue_device.specs.Kept.{is_state};

    ghost Value = { QueueRounds K };

    ghost view = { λ d. d.state };

    ghost invariant = { λ d. is_state K.service K.times K.is_work d.state.phase d.state.rounds (K.stage d.state.kind) ≡ true };
}

impl<K: Kind> QueueDevice<K> {
    /// The device of this port that has done nothing, in a guest of so many pages, of a kind that is at rest.
    pub fn new(port: u8, pages: u32, kind: K) -> QueueDevice<K>
        requires { K.is_work work.Rest pages (K.stage kind) ≡ true }
        ensures left { left_at K.service result.phase (K.hand (K.stage result.kind)) (queued result.rounds (K.own result.kind)) ≡
            Ends (queued (new_rounds port pages) (K.own kind)) }
        ensures kept { result ≡ record { rounds = new_rounds port pages; kind = kind; phase = Between } }
    {
        QueueDevice {
            state: QueueRounds::new(port, pages, kind),
        }
    }

    /// The device that is in this state, where one may be in it.
    pub fn from_state(state: QueueRounds<K>) -> Option<QueueDevice<K>>
        ensures { result ≡
            (if kept.is_state K.service K.times K.is_work state.phase state.rounds (K.stage state.kind) then Some state else None) }
    {
        if is_state(&state.phase, &state.rounds, &state.kind) {
            Some(QueueDevice { state })
        } else {
            None
        }
    }

    /// What it keeps, which is a state that it may be in.
    pub fn state(&self) -> &QueueRounds<K>
        ensures state { result.now ≡ self.now }
        ensures is { kept.is_state K.service K.times K.is_work self.now.phase self.now.rounds (K.stage self.now.kind) ≡ true }
    {
        &self.state
    }

    /// A device that keeps the same.
    pub fn again(&self) -> QueueDevice<K>
        ensures { result ≡ self.now }
    {
        QueueDevice {
            state: self.state.again(),
        }
    }

    /// A change from outside.
    pub fn change(&mut self, change: K::Change)
        ensures { left_at K.service self.new.phase (K.hand (K.stage self.new.kind)) (queued self.new.rounds (K.own self.new.kind)) ≡
            changed_at (queue_rules K.service K.changing) change
            (left_at K.service self.old.phase (K.hand (K.stage self.old.kind)) (queued self.old.rounds (K.own self.old.kind))) }
    {
        self.state.change(change);
    }

    fn stepped(&mut self, reply: Reply)
        requires { fits (wants (queue_rules K.service K.changing)
            (left_at K.service self.old.phase (K.hand (K.stage self.old.kind)) (queued self.old.rounds (K.own self.old.kind)))) reply ≡ true }
        ensures { left_at K.service self.new.phase (K.hand (K.stage self.new.kind)) (queued self.new.rounds (K.own self.new.kind)) ≡
            stepped (queue_rules K.service K.changing)
            (left_at K.service self.old.phase (K.hand (K.stage self.old.kind)) (queued self.old.rounds (K.own self.old.kind))) reply }
    {
        self.state.step(reply);
    }
}

impl<K: Kind> Actor for QueueDevice<K> {
    ghost use Rattle.device_trace.specs.Script.{Script};
    ghost use Rattle.device_trace.specs.States.{leaves, next, wants};
    ghost use Rattle.queue_device.specs.Left.{left_at, queued};
    ghost use Rattle.queue_device.specs.Rounds.{queue_rules};
    ghost use Rattle.queue_device.specs.Service.{Queued};

    ghost State = { Script (Queued K.Own) };

    ghost state = { λ d. left_at K.service d.phase (K.hand (K.stage d.kind)) (queued d.rounds (K.own d.kind)) };

    ghost wants = { wants (queue_rules K.service K.changing) };

    ghost next = { next (queue_rules K.service K.changing) };

    ghost leaves = { leaves (queue_rules K.service K.changing) };

    fn want(&self) -> Op {
        self.state.want()
    }

    fn give(&mut self, reply: Reply) {
        let op = self.want();
        if is_fit(&op, &reply) {
            self.stepped(reply);
        }
    }
}
