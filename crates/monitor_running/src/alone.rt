// Where every hart but one waits: a turn of that hart, and no slice.
ghost use Rattle.std.specs.Prelude.{◌≡◌, ◌≢◌, ◌≤◌, ◌<◌, ◌↔◌, ℕ, true, length, All, IfSome, None, Some};
ghost use Rattle.vm_types.specs.declared.ids.ActorId.{ActorId};
ghost use Rattle.vm_types.specs.declared.op.Op.TheVariants.{Idle};
ghost use Rattle.vm_world.specs.Worlds.{want_in};
ghost use Rattle.monitor_running.specs.Alone.{HasRun};
ghost use Rattle.monitor_running.specs.Objects.{known_with};
ghost use Rattle.monitor_running.specs.Passes.{ArePassed};
ghost use Rattle.monitor_running.specs.Turned.{IsTurn};
ghost use Rattle.monitor_running.specs.Waiting.{IsAlone, OthersIdle};

use crate::gating::looks_open;
use crate::objects::TurnObjects;
use crate::ran::Ran;
use crate::telling::tell_steps;
use crate::waiting::{pass_round, waits};
use crate::working::device_works;
use guest_memory::HART_LIMIT;
use pause_gate::Gate;
use std::alloc::Global;
use vm_outside::Sink;
use vm_types::ActorId;
use vm_world::World;

/// A hart, the devices and the gate are looked at after so many events, and where the hart waits then, or a device doesn't, or the
/// gate is closed, its turn is over. A wait and its look come in turn, so an even number would find a hart that waits at its look
/// again and again. The pages that are spare for them, one an event, are memory of the monitor's own.
const EVENTS_AT_ONCE: u64 = 255;

/// A turn of one hart has at most so many events, so that it takes less than a millisecond.
pub const MOST_ALONE: u32 = 49_152;

/// A turn of this hart, of so many events at most, or rounds of such bursts, one of each hart after another; and how many events were
/// made.
#[derive(Clone, Copy, Drop)]
pub struct Turn {
    pub hart: u8,
    pub most: u32,
    pub rounds: u32,
    pub made: u64,
}

impl Turn {
    /// None is made yet.
    pub fn new(hart: u8, most: u32) -> Turn
        ensures { result ≡ record { hart = hart; most = most; rounds = 1; made = 0 } }
    {
        Turn {
            hart,
            most,
            rounds: 1,
            made: 0,
        }
    }

    /// A hart makes so many events at most, in bursts of so many. None is made yet.
    pub fn of_rounds(most: u32, burst: u32) -> Turn
        ensures burst { (result.most ≤ most) × (result.most ≤ burst) }
        ensures none { result.made ≡ 0 }
    {
        let burst = burst.min(most);
        Turn {
            hart: 0,
            most: burst,
            rounds: most / burst.max(1),
            made: 0,
        }
    }
}

// Whether each hart but this one waits.
fn others_wait(world: &World, alone: u8) -> bool
    requires { length world.now.harts ≤ 32 }
    ensures { (result ≡ true) ↔ OthersIdle alone world.now }
{
    for number in 0..world.hart_count() {
        let hart = number as u8;
        if hart != alone && !waits(world, hart) {
            return false;
        }
    }
    true
}

/// The hart that alone doesn't wait, if there is one.
pub fn lone_hart(world: &World) -> Option<u8>
    requires { length world.now.harts ≤ 32 }
    ensures alone { IfSome result (λ hart. IsAlone hart world.now) }
    ensures none { result ≡ None → (k : ℕ) → IsAlone k world.now → ⊥ }
{
    for number in 0..world.hart_count() {
        let hart = number as u8;
        if !waits(world, hart) {
            return lone_if(world, hart);
        }
    }
    None
}

// This hart, if it is the only one.
fn lone_if(world: &World, hart: u8) -> Option<u8>
    requires few { length world.now.harts ≤ 32 }
    requires busy { want_in world.now (ActorId.Hart hart) ≢ Some Idle }
    requires there { hart < length world.now.harts }
    ensures alone { IfSome result (λ hart. IsAlone hart world.now) }
    ensures none { result ≡ None → (k : ℕ) → IsAlone k world.now → ⊥ }
{
    if others_wait(world, hart) {
        Some(hart)
    } else {
        None
    }
}

// How many of these events are made at once: an odd number.
fn at_once(left: u64) -> u64
    requires { 0 < left }
    ensures { (0 < result) × (result ≤ left) }
{
    let most = left.min(EVENTS_AT_ONCE);
    most - (most + 1) % 2
}

// Whether a turn of the hart is over, though it has events left. Where a device has something to do its turn is to come soon, so that a
// request of a guest waits no longer than the events that are made at once.
fn is_to_end(world: &World, hart: u8) -> bool {
    waits(world, hart) || device_works(world)
}

// Events of the hart until it waits or stops, or a device has something to do, or the gate is closed, or it has made as many as its
// turn has, and how many there were.
fn run_hart<Q, G: Gate<Pass = Q>>(
    alloc: Global,
    world: &mut World,
    turn: Turn,
    gate: &G,
    passes: &mut Vec<Q>,
) -> u64
    requires some { 0 < length passes.old.items }
    requires serve { All (G.serves gate.now) passes.old.items }
    ensures run { HasRun turn.hart result world.old world.new }
    ensures most { result ≤ turn.most }
    ensures passes { ArePassed (G.serves gate.now) G.tally None passes.old.items passes.new.items }
{
    let most = turn.most as u64;
    let mut made = 0;
    while made < most {
        let next = at_once(most - made);
        let Ok(()) = world.reserve(alloc, next) else {
            return made;
        };
        let Ok(count) = world.run(ActorId::Hart(turn.hart), next) else {
            return made;
        };
        made += count.min(next);
        if count < next || is_to_end(world, turn.hart) {
            return made;
        }
        if !looks_open(gate, passes) {
            return made;
        }
    }
    made
}

/// A burst of this hart, unless it waits: its events, which are told, and then a drain.
pub fn run_burst<Q, W: TurnObjects, G: Gate<Pass = Q>, K: Sink>(
    alloc: Global,
    world: &mut World,
    with: &mut W,
    gate: &G,
    passes: &mut Vec<Q>,
    turn: &mut Turn,
    sink: &mut K,
) -> Option<Ran>
    requires some { 0 < length passes.old.items }
    requires serve { All (G.serves gate.now) passes.old.items }
    ensures { IsTurn (G.serves gate.now) G.tally result
        (known_with (W.known with.old) (K.known sink.old)) world.old passes.old.items
        (known_with (W.known with.new) (K.known sink.new)) world.new passes.new.items }
{
    let hart = turn.hart;
    if waits(world, hart) {
        return None;
    }
    let Ok(()) = world.reserve(alloc, EVENTS_AT_ONCE) else {
        return Some(Ran::OutOfMemory);
    };
    let made = run_hart(alloc, world, *turn, gate, passes);
    turn.made = turn.made.saturating_add(made);
    tell_steps(ActorId::Hart(hart), made, world, with, sink)
}

/// A turn of one hart. Before it two events of the timer and of each other hart are made, and where another one waits no more after
/// them, this turn has no event of the hart. They are told, and drained, and so are then the hart's.
pub fn run_alone<Q, W: TurnObjects, G: Gate<Pass = Q>, K: Sink>(
    alloc: Global,
    world: &mut World,
    with: &mut W,
    gate: &G,
    passes: &mut Vec<Q>,
    turn: &mut Turn,
    sink: &mut K,
) -> Option<Ran>
    requires harts { length world.old.harts ≤ 32 }
    requires some { 0 < length passes.old.items }
    requires serve { All (G.serves gate.now) passes.old.items }
    ensures { IsTurn (G.serves gate.now) G.tally result
        (known_with (W.known with.old) (K.known sink.old)) world.old passes.old.items
        (known_with (W.known with.new) (K.known sink.new)) world.new passes.new.items }
{
    if let Some(end) = pass_round(alloc, world, with, Some(turn.hart), sink) {
        return Some(end);
    }
    if world.hart_count() > HART_LIMIT || !others_wait(world, turn.hart) {
        return None;
    }
    run_burst(alloc, world, with, gate, passes, turn, sink)
}
