// Actors at work, each with its pass and its journal.
ghost use Rattle.std.specs.Prelude.{◌≡◌, ◌+◌, ◌<◌, ◌^◌, ℕ, true, false, length, vec_len, vec_capacity, IfNone, IfSome, MatchOption};
ghost use Rattle.vm_types.specs.declared.ids.ActorId.{ActorId};
ghost use Rattle.hart_trace.specs.States.{Hart as HartValue, hart_next, hart_wants};
ghost use Rattle.timer_trace.specs.States.{timer_next, timer_wants};
ghost use Rattle.timer_trace.specs.declared.timer.Timer.{Timer as TimerValue};
ghost use Rattle.guest_devices.specs.Devices.{DeviceLeft, device_next, device_wants};
ghost use Rattle.guest_devices.specs.Kept.{device_left};
ghost use Rattle.flat_guest.specs.Given.{as_given};
ghost use Rattle.flat_guest.specs.Steps.{is_given};
ghost use Rattle.pause_gate.specs.Tally.{Tally};
ghost use Rattle.vm_host.specs.Telling.{ClockKnown};
ghost use Rattle.slice_runner.specs.Blanks.{CanAct};
ghost use Rattle.slice_runner.specs.Runs.{AreAnswered, Begins, DeviceWorked, GoesOn, HartWorked, HasAnswered, HasEnded, IsActOf, IsAsked};
ghost use Rattle.slice_runner.specs.Runs.{IsGivenBy, IsSameBut, IsUnderWay, StopsFor, TimerWorked, WritesDown, can_be_done, has_port};
ghost use Rattle.slice_runner.specs.Seats.{IsSeated, StaysSeated};
ghost use Rattle.slice_runner.specs.Slices.{answers_of};

use crate::acting::act_once;
use crate::objects::DeviceObjects;
use crate::places::Places;
use crate::stop::Stop;
use guest_devices::Device;
use guest_pages::Blank;
use hart_rv64::Hart;
use machine_places::MachinePlace;
use pause_gate::Gate;
use std::sync::Wait;
use timer_trace::Timer;
use turn_work::Worker;
use vm_host::Clock;
use vm_types::{Actor, Entry, Op, OutOp, Reply};

/// What an actor did in a slice: the pass with which it asks the gate, whether its last reply was that the console ring is
/// full, why it stopped; who it is, with its last stamp, its seat, and its entries in room that was made before; and its blanks.
#[derive(Drop)]
pub struct Track<Q> {
    pub pass: Q,
    pub full: bool,
    pub stop: Stop,
    pub work: Worker<MachinePlace>,
    pub pool: Vec<Blank>,
}

/// A hart at work.
#[derive(Drop)]
pub struct HartWorker<Q> {
    pub hart: Hart,
    pub track: Track<Q>,
}

/// The timer at work.
#[derive(Drop)]
pub struct TimerWorker<Q> {
    pub timer: Timer,
    pub track: Track<Q>,
}

/// A device at work, and its number.
#[derive(Drop)]
pub struct DeviceWorker<Q> {
    pub number: u8,
    pub device: Device,
    pub track: Track<Q>,
}

impl<Q> Track<Q> {
    // Why the actor makes no further step with this want; `None` where it makes one. A wait is made only as a first step.
    fn stops<G: Gate<Pass = Q>>(&mut self, gate: &G, places: &Places, want: &Op) -> Option<Stop>
        requires { G.serves gate.now self.old.pass }
        ensures pass { G.serves gate.now self.new.pass }
        ensures same { IsSameBut self.old self.new }
        ensures why { MatchOption result
            (GoesOn G.tally places.now.layout places.now.made.items want.now self.old self.new)
            (StopsFor G.tally places.now.layout places.now.made.items want.now self.old self.new) }
    {
        if !self.work.journal.is_empty() && matches!(want, Op::Idle) {
            return Some(Stop::Idle);
        }
        if self.full {
            return Some(Stop::Full);
        }
        if self.work.clock >= 1 << 63 {
            return Some(Stop::Stamp);
        }
        if self.pool.is_empty() && !places.was_made(want) {
            return Some(Stop::Blanks);
        }
        if gate.ask(&mut self.pass) {
            None
        } else {
            Some(Stop::Gate)
        }
    }

    // The next act, which is written down in room that was made before.
    fn act<R: Wait, G: Gate>(
        &mut self,
        rt: &R,
        gate: &G,
        places: &Places,
        op: &Op,
        given: Option<Reply>,
    ) -> Entry
        requires seat { IsSeated places.now self.old.work }
        requires room { (vec_len self.old.work.journal < vec_capacity self.old.work.journal) × (vec_len self.old.work.journal < 2 ^ 32) }
        requires clock { self.old.work.clock < 2 ^ 63 }
        requires given { is_given op.now (as_given given) ≡ true }
        requires port { has_port places.now.layout op.now ≡ true }
        requires fed { CanAct places.now.made.items places.now.layout op.now (length self.old.pool.items) }
        ensures seat { StaysSeated places.now self.old.work self.new.work }
        ensures entry { IsActOf result self.old.work.actor op.now (as_given given) places.now.layout self.old.work.clock }
        ensures wrote { WritesDown result self.old self.new }
    {
        let entry = act_once(rt, gate, places, self, op, given);
        self.full = matches!(entry.reply, Reply::Full);
        entry
    }
}

impl<Q> HartWorker<Q> {
    // The next step, or why none is made.
    fn step<R: Wait, G: Gate<Pass = Q>>(
        &mut self,
        rt: &R,
        gate: &G,
        places: &Places,
    ) -> Option<Stop>
        requires pass { G.serves gate.now self.old.track.pass }
        requires seat { IsSeated places.now self.old.track.work }
        requires room { (vec_len self.old.track.work.journal < vec_capacity self.old.track.work.journal)
            × (vec_len self.old.track.work.journal < 2 ^ 32) }
        ensures pass { G.serves gate.now self.new.track.pass }
        ensures seat { StaysSeated places.now self.old.track.work self.new.track.work }
        ensures room { vec_capacity self.new.track.work.journal ≡ vec_capacity self.old.track.work.journal }
        ensures one { IfNone result (vec_len self.new.track.work.journal ≡ vec_len self.old.track.work.journal + 1) }
        ensures went { IfNone result ((id : ActorId) (s : HartValue) (c : Tally) (blanks : ℕ) →
            IsUnderWay hart_wants hart_next G.tally places.now.layout id s c blanks self.old.hart self.old.track →
            IsUnderWay hart_wants hart_next G.tally places.now.layout id s c blanks self.new.hart self.new.track) }
        ensures ended { IfSome result (λ stop. (id : ActorId) (s : HartValue) (c : Tally) (n blanks : ℕ) →
            IsUnderWay hart_wants hart_next G.tally places.now.layout id s c blanks self.old.hart self.old.track →
            vec_len self.old.track.work.journal < n →
            HasEnded hart_wants hart_next G.tally places.now.layout places.now.made.items id s c n blanks self.new.hart self.new.track stop) }
    {
        let op = self.hart.want();
        if let Some(stop) = self.track.stops(gate, places, &op) {
            return Some(stop);
        }
        let entry = self.track.act(rt, gate, places, &op, None);
        self.hart.give(entry.reply);
        None
    }

    /// So many steps at most, the gate asked before each.
    pub fn run<R: Wait, G: Gate<Pass = Q>>(&mut self, rt: &R, gate: &G, places: &Places, n: u32)
        requires pass { G.serves gate.now self.old.track.pass }
        requires seat { IsSeated places.now self.old.track.work }
        requires begins { Begins n (length self.old.track.pool.items) self.old.track }
        ensures pass { G.serves gate.now self.new.track.pass }
        ensures seat { StaysSeated places.now self.old.track.work self.new.track.work }
        ensures worked { HartWorked G.tally places.now.layout places.now.made.items n self.old self.new }
    {
        for _step in 0..n {
            if let Some(stop) = self.step(rt, gate, places) {
                self.track.stop = stop;
                return;
            }
        }
        self.track.stop = Stop::Steps;
    }
}

/// What the clock answers an op that asks it.
pub fn ask_clock<C: Clock>(clock: &mut C, op: &Op) -> Option<Reply>
    ensures { IsAsked op.now (C.known clock.old) result (C.known clock.new) }
{
    match op {
        Op::Out(OutOp::Clock) => Some(Reply::Word(clock.now())),
        _ => None,
    }
}

impl<Q> TimerWorker<Q> {
    // The next step, or why none is made.
    fn step<R: Wait, C: Clock, G: Gate<Pass = Q>>(
        &mut self,
        rt: &R,
        gate: &G,
        places: &Places,
        clock: &mut C,
    ) -> Option<Stop>
        requires pass { G.serves gate.now self.old.track.pass }
        requires seat { IsSeated places.now self.old.track.work }
        requires room { (vec_len self.old.track.work.journal < vec_capacity self.old.track.work.journal)
            × (vec_len self.old.track.work.journal < 2 ^ 32) }
        ensures pass { G.serves gate.now self.new.track.pass }
        ensures seat { StaysSeated places.now self.old.track.work self.new.track.work }
        ensures room { vec_capacity self.new.track.work.journal ≡ vec_capacity self.old.track.work.journal }
        ensures one { IfNone result (vec_len self.new.track.work.journal ≡ vec_len self.old.track.work.journal + 1) }
        ensures went { IfNone result ((id : ActorId) (s : TimerValue) (c : Tally) (blanks : ℕ) →
            IsUnderWay timer_wants timer_next G.tally places.now.layout id s c blanks self.old.timer self.old.track →
            IsUnderWay timer_wants timer_next G.tally places.now.layout id s c blanks self.new.timer self.new.track) }
        ensures ended { IfSome result (λ stop. (id : ActorId) (s : TimerValue) (c : Tally) (n blanks : ℕ) →
            IsUnderWay timer_wants timer_next G.tally places.now.layout id s c blanks self.old.timer self.old.track →
            vec_len self.old.track.work.journal < n →
            HasEnded timer_wants timer_next G.tally places.now.layout places.now.made.items id s c n blanks self.new.timer self.new.track stop) }
        ensures answers { (start : ClockKnown) →
            HasAnswered start (answers_of self.old.track.work.journal.items) (C.known clock.old) →
            HasAnswered start (answers_of self.new.track.work.journal.items) (C.known clock.new) }
    {
        let op = self.timer.want();
        if let Some(stop) = self.track.stops(gate, places, &op) {
            return Some(stop);
        }
        let given = ask_clock(clock, &op);
        let entry = self.track.act(rt, gate, places, &op, given);
        self.timer.give(entry.reply);
        None
    }

    /// So many steps at most, the gate asked before each.
    pub fn run<R: Wait, C: Clock, G: Gate<Pass = Q>>(
        &mut self,
        rt: &R,
        gate: &G,
        places: &Places,
        n: u32,
        clock: &mut C,
    )
        requires pass { G.serves gate.now self.old.track.pass }
        requires seat { IsSeated places.now self.old.track.work }
        requires begins { Begins n (length self.old.track.pool.items) self.old.track }
        ensures pass { G.serves gate.now self.new.track.pass }
        ensures seat { StaysSeated places.now self.old.track.work self.new.track.work }
        ensures worked { TimerWorked G.tally places.now.layout places.now.made.items n self.old self.new }
        ensures answers { HasAnswered (C.known clock.old) (answers_of self.new.track.work.journal.items) (C.known clock.new) }
    {
        for _step in 0..n {
            if let Some(stop) = self.step(rt, gate, places, clock) {
                self.track.stop = stop;
                return;
            }
        }
        self.track.stop = Stop::Steps;
    }
}

// Whether an act has an answer: its port is there, or the objects answer such a call.
fn is_answered<O: DeviceObjects>(objects: &O, places: &Places, op: &Op) -> bool
    ensures { result ≡ can_be_done O.calls places.now.layout op.now }
{
    match op {
        Op::Port { port, act: _ } => *port < places.layout.ports,
        Op::Out(act) => objects.is_call(act),
        _ => true,
    }
}

// What the objects answer the device with this number, if it calls them.
fn ask_object<O: DeviceObjects>(
    objects: &mut O,
    places: &Places,
    device: u8,
    op: &Op,
) -> Option<Reply>
    requires { can_be_done O.calls places.now.layout op.now ≡ true }
    ensures { IsGivenBy O.Answers device op.now (O.known objects.old) result (O.known objects.new) }
{
    match op {
        Op::Out(act) => Some(objects.answer(device, act)),
        _ => None,
    }
}

impl<Q> DeviceWorker<Q> {
    // The next step, or why none is made.
    fn step<R: Wait, O: DeviceObjects, G: Gate<Pass = Q>>(
        &mut self,
        rt: &R,
        gate: &G,
        places: &Places,
        objects: &mut O,
    ) -> Option<Stop>
        requires pass { G.serves gate.now self.old.track.pass }
        requires seat { IsSeated places.now self.old.track.work }
        requires room { (vec_len self.old.track.work.journal < vec_capacity self.old.track.work.journal)
            × (vec_len self.old.track.work.journal < 2 ^ 32) }
        ensures pass { G.serves gate.now self.new.track.pass }
        ensures seat { StaysSeated places.now self.old.track.work self.new.track.work }
        ensures room { vec_capacity self.new.track.work.journal ≡ vec_capacity self.old.track.work.journal }
        ensures one { IfNone result (vec_len self.new.track.work.journal ≡ vec_len self.old.track.work.journal + 1) }
        ensures went { IfNone result ((id : ActorId) (s : DeviceLeft) (c : Tally) (blanks : ℕ) →
            IsUnderWay device_wants device_next G.tally places.now.layout id s c blanks (device_left self.old.device) self.old.track →
            IsUnderWay device_wants device_next G.tally places.now.layout id s c blanks (device_left self.new.device) self.new.track) }
        ensures ended { IfSome result (λ stop. (id : ActorId) (s : DeviceLeft) (c : Tally) (n blanks : ℕ) →
            IsUnderWay device_wants device_next G.tally places.now.layout id s c blanks (device_left self.old.device) self.old.track →
            vec_len self.old.track.work.journal < n →
            HasEnded device_wants device_next G.tally places.now.layout places.now.made.items id s c n blanks (device_left self.new.device) self.new.track stop) }
        ensures number { self.new.number ≡ self.old.number }
        ensures answers { (start : O.Known) →
            AreAnswered O.Answers self.old.number start self.old.track.work.journal.items (O.known objects.old) →
            AreAnswered O.Answers self.old.number start self.new.track.work.journal.items (O.known objects.new) }
    {
        let op = self.device.want();
        if !is_answered(objects, places, &op) {
            return Some(Stop::Unanswered);
        }
        if let Some(stop) = self.track.stops(gate, places, &op) {
            return Some(stop);
        }
        let given = ask_object(objects, places, self.number, &op);
        let entry = self.track.act(rt, gate, places, &op, given);
        self.device.give(entry.reply);
        None
    }

    /// So many steps at most, the gate asked before each.
    pub fn run<R: Wait, O: DeviceObjects, G: Gate<Pass = Q>>(
        &mut self,
        rt: &R,
        gate: &G,
        places: &Places,
        n: u32,
        objects: &mut O,
    )
        requires pass { G.serves gate.now self.old.track.pass }
        requires seat { IsSeated places.now self.old.track.work }
        requires begins { Begins n (length self.old.track.pool.items) self.old.track }
        ensures pass { G.serves gate.now self.new.track.pass }
        ensures seat { StaysSeated places.now self.old.track.work self.new.track.work }
        ensures worked { DeviceWorked G.tally places.now.layout places.now.made.items n self.old self.new }
        ensures number { self.new.number ≡ self.old.number }
        ensures answers { AreAnswered O.Answers self.old.number (O.known objects.old) self.new.track.work.journal.items (O.known objects.new) }
    {
        for _step in 0..n {
            if let Some(stop) = self.step(rt, gate, places, objects) {
                self.track.stop = stop;
                return;
            }
        }
        self.track.stop = Stop::Steps;
    }
}
