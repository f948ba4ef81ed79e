// A device with queues as an actor.
ghost use Rattle.std.specs.Prelude.{◌≡◌, true};
ghost use Rattle.vm_types.specs.Fits.{fits};
ghost use Rattle.device_trace.specs.Script.{Ends};
ghost use Rattle.device_trace.specs.States.{changed_at, stepped, wants};
ghost use Rattle.queue_device.specs.declared.phase.Phase.TheVariants.{Between};
ghost use Rattle.queue_device.specs.Kept.{is_state};
ghost use Rattle.queue_device.specs.Lanes.{new_rounds};
ghost use Rattle.queue_device.specs.Left.{left_at, queued};
ghost use Rattle.queue_device.specs.Rounds.{queue_rules};

use crate::begun::{begin_step, begun};
use crate::in_place::{return_step, take_step, walk_step};
use crate::inside::{inside_given, inside_op, serve_given};
use crate::kind::Kind;
use crate::lanes::Rounds;
use crate::opening::opening;
use crate::phase::Phase;
use std::mem::replace;
use vm_types::{Actor, Op, Reply, is_fit};

/// A device with queues: its rounds, its kind, and what it is at.
#[derive(Drop)]
pub struct QueueRounds<K> {
    pub rounds: Rounds,
    pub kind: K,
    pub phase: Phase,
}

impl<K: Kind> QueueRounds<K> {
    /// The device of this port that has done nothing, in a guest of so many pages.
    pub fn new(port: u8, pages: u32, kind: K) -> QueueRounds<K>
        ensures left { left_at K.service result.phase (K.hand (K.stage result.kind)) (queued result.rounds (K.own result.kind)) ≡
            Ends (queued (new_rounds port pages) (K.own kind)) }
        ensures kept { result ≡ record { rounds = new_rounds port pages; kind = kind; phase = Between } }
    {
        QueueRounds {
            rounds: Rounds::new(port, pages),
            kind,
            phase: Phase::Between,
        }
    }

    /// Leads on by a reply that fits.
    pub fn step(&mut self, reply: Reply)
        requires { fits (wants (queue_rules K.service K.changing)
            (left_at K.service self.old.phase (K.hand (K.stage self.old.kind)) (queued self.old.rounds (K.own self.old.kind)))) reply ≡ true }
        ensures left { left_at K.service self.new.phase (K.hand (K.stage self.new.kind)) (queued self.new.rounds (K.own self.new.kind)) ≡
            stepped (queue_rules K.service K.changing)
            (left_at K.service self.old.phase (K.hand (K.stage self.old.kind)) (queued self.old.rounds (K.own self.old.kind))) reply }
        ensures kept { is_state K.service K.times K.is_work self.old.phase self.old.rounds (K.stage self.old.kind) ≡ true →
            is_state K.service K.times K.is_work self.new.phase self.new.rounds (K.stage self.new.kind) ≡ true }
    {
        match &self.phase {
            Phase::Between => {
                begin_step(&mut self.rounds, &mut self.kind, &mut self.phase, reply);
            }
            Phase::Walk { which: _, walk: _ } => {
                walk_step(&mut self.rounds, &mut self.kind, &mut self.phase, reply);
            }
            Phase::Take { chain } => {
                let chain = *chain;
                take_step(
                    &mut self.rounds,
                    &mut self.kind,
                    &mut self.phase,
                    chain,
                    &reply,
                );
            }
            Phase::Serve { chain } => {
                let chain = *chain;
                serve_given(&self.rounds, &mut self.kind, &mut self.phase, chain, &reply);
            }
            Phase::Return {
                chain: _,
                len: _,
                stage: _,
            } => {
                return_step(&mut self.rounds, &mut self.kind, &mut self.phase, &reply);
            }
            _ => self.step_moved(reply),
        }
    }

    // The same where what the device is at is moved. A function of its own, since each call clears the room for all that a
    // function may move.
    #[inline(never)]
    fn step_moved(&mut self, reply: Reply)
        requires { fits (wants (queue_rules K.service K.changing)
            (left_at K.service self.old.phase (K.hand (K.stage self.old.kind)) (queued self.old.rounds (K.own self.old.kind)))) reply ≡ true }
        ensures left { left_at K.service self.new.phase (K.hand (K.stage self.new.kind)) (queued self.new.rounds (K.own self.new.kind)) ≡
            stepped (queue_rules K.service K.changing)
            (left_at K.service self.old.phase (K.hand (K.stage self.old.kind)) (queued self.old.rounds (K.own self.old.kind))) reply }
        ensures kept { is_state K.service K.times K.is_work self.old.phase self.old.rounds (K.stage self.old.kind) ≡ true →
            is_state K.service K.times K.is_work self.new.phase self.new.rounds (K.stage self.new.kind) ≡ true }
    {
        match replace(&mut self.phase, Phase::Between) {
            Phase::Between => self.phase = begun(&mut self.rounds, &mut self.kind, reply),
            phase => {
                let _op = inside_op(&self.rounds, &self.kind, &phase);
                self.phase = inside_given(&mut self.rounds, &mut self.kind, phase, reply);
            }
        }
    }

    /// A change from outside.
    pub fn change(&mut self, change: K::Change)
        ensures left { left_at K.service self.new.phase (K.hand (K.stage self.new.kind)) (queued self.new.rounds (K.own self.new.kind)) ≡
            changed_at (queue_rules K.service K.changing) change
            (left_at K.service self.old.phase (K.hand (K.stage self.old.kind)) (queued self.old.rounds (K.own self.old.kind))) }
        ensures kept { is_state K.service K.times K.is_work self.old.phase self.old.rounds (K.stage self.old.kind) ≡ true →
            is_state K.service K.times K.is_work self.new.phase self.new.rounds (K.stage self.new.kind) ≡ true }
    {
        if let Phase::Between = &self.phase {
            self.kind.change(change);
            return;
        }
        let op = inside_op(&self.rounds, &self.kind, &self.phase);
        if let Some(reply) = self.kind.change_inside(change, &op) {
            let phase = replace(&mut self.phase, Phase::Between);
            self.phase = inside_given(&mut self.rounds, &mut self.kind, phase, reply);
        }
    }
}

impl<K: Kind> Actor for QueueRounds<K> {
    ghost use Rattle.device_trace.specs.Script.{Script};
    ghost use Rattle.device_trace.specs.States.{leaves, next, wants};
    ghost use Rattle.queue_device.specs.Left.{left_at, queued};
    ghost use Rattle.queue_device.specs.Rounds.{queue_rules};
    ghost use Rattle.queue_device.specs.Service.{Queued};

    ghost State = { Script (Queued K.Own) };

    ghost state = { λ d. left_at K.service d.phase (K.hand (K.stage d.kind)) (queued d.rounds (K.own d.kind)) };

    ghost wants = { wants (queue_rules K.service K.changing) };

    ghost next = { next (queue_rules K.service K.changing) };

    ghost leaves = { leaves (queue_rules K.service K.changing) };

    fn want(&self) -> Op {
        match &self.phase {
            Phase::Between => opening(&self.rounds, &self.kind),
            Phase::Serve { chain: _ } => self.kind.want(),
            phase => inside_op(&self.rounds, &self.kind, phase),
        }
    }

    fn give(&mut self, reply: Reply) {
        let op = self.want();
        if is_fit(&op, &reply) {
            self.step(reply);
        }
    }
}
