// Where several harts have something to do: a burst of each of them, one after another, and no slice.
ghost use Rattle.std.specs.Prelude.{◌≡◌, ◌≤◌, ◌<◌, length, All};
ghost use Rattle.monitor_running.specs.Objects.{known_with};
ghost use Rattle.monitor_running.specs.Turned.{IsTurn};

use crate::alone::{MOST_ALONE, Turn, run_burst};
use crate::objects::TurnObjects;
use crate::ran::Ran;
use crate::steering::Steering;
use crate::waiting::pass_round;
use crate::working::device_works;
use guest_memory::HART_LIMIT;
use pause_gate::Gate;
use std::alloc::Global;
use vm_outside::Sink;
use vm_world::World;

/// A burst has so many events at most: four looks at the gate. While a hart that has a lock rests, one that waits for the lock makes a
/// burst for nothing, and short bursts waste less.
const MOST_OF_BURST: u32 = 1_020;

// A hart makes so many events in a turn at most. Those of all harts take less than a millisecond.
fn most_each(world: &World, steps: u32) -> u32
    requires { length world.now.harts ≤ 32 }
    ensures { result ≤ steps }
{
    let harts = world.hart_count() as u32;
    steps.min(MOST_ALONE / harts.max(1))
}

// A burst of each hart that doesn't wait, in order.
fn run_bursts<Q, W: TurnObjects, G: Gate<Pass = Q>, K: Sink>(
    alloc: Global,
    world: &mut World,
    with: &mut W,
    gate: &G,
    passes: &mut Vec<Q>,
    turn: &mut Turn,
    sink: &mut K,
) -> Option<Ran>
    requires harts { length world.old.harts ≤ 32 }
    requires some { 0 < length passes.old.items }
    requires serve { All (G.serves gate.now) passes.old.items }
    ensures { IsTurn (G.serves gate.now) G.tally result
        (known_with (W.known with.old) (K.known sink.old)) world.old passes.old.items
        (known_with (W.known with.new) (K.known sink.new)) world.new passes.new.items }
{
    let harts = world.hart_count();
    for number in 0..harts {
        turn.hart = number as u8;
        if let Some(end) = run_burst(alloc, world, with, gate, passes, turn, sink) {
            return Some(end);
        }
    }
    None
}

// As many rounds of bursts as the turn has, but no more once a device has something to do.
fn run_rounds<Q, W: TurnObjects, G: Gate<Pass = Q>, K: Sink>(
    alloc: Global,
    world: &mut World,
    with: &mut W,
    gate: &G,
    passes: &mut Vec<Q>,
    turn: &mut Turn,
    sink: &mut K,
) -> Option<Ran>
    requires harts { length world.old.harts ≤ 32 }
    requires some { 0 < length passes.old.items }
    requires serve { All (G.serves gate.now) passes.old.items }
    ensures { IsTurn (G.serves gate.now) G.tally result
        (known_with (W.known with.old) (K.known sink.old)) world.old passes.old.items
        (known_with (W.known with.new) (K.known sink.new)) world.new passes.new.items }
{
    let rounds = turn.rounds;
    for _ in 0..rounds {
        if world.hart_count() > HART_LIMIT {
            return None;
        }
        if let Some(end) = run_bursts(alloc, world, with, gate, passes, turn, sink) {
            return Some(end);
        }
        if device_works(world) {
            return None;
        }
    }
    None
}

// Bursts, and behind them two events of the timer and of each hart. They are told, and drained.
fn run_and_pass<Q, W: TurnObjects, G: Gate<Pass = Q>, K: Sink>(
    alloc: Global,
    world: &mut World,
    with: &mut W,
    gate: &G,
    passes: &mut Vec<Q>,
    turn: &mut Turn,
    sink: &mut K,
) -> Option<Ran>
    requires harts { length world.old.harts ≤ 32 }
    requires some { 0 < length passes.old.items }
    requires serve { All (G.serves gate.now) passes.old.items }
    ensures { IsTurn (G.serves gate.now) G.tally result
        (known_with (W.known with.old) (K.known sink.old)) world.old passes.old.items
        (known_with (W.known with.new) (K.known sink.new)) world.new passes.new.items }
{
    if let Some(end) = run_rounds(alloc, world, with, gate, passes, turn, sink) {
        return Some(end);
    }
    if world.hart_count() > HART_LIMIT {
        return None;
    }
    pass_round(alloc, world, with, None, sink)
}

/// A turn of several harts, one after another: two events of the timer and of each hart, then rounds of bursts, one of each hart that
/// doesn't wait, and then two events of the timer and of each hart again. Each part is told, and drained.
pub fn run_in_rotation<Q, W: TurnObjects, G: Gate<Pass = Q>, K: Sink>(
    alloc: Global,
    world: &mut World,
    with: &mut W,
    gate: &G,
    steering: &mut Steering<Q>,
    sink: &mut K,
) -> Option<Ran>
    requires harts { length world.old.harts ≤ 32 }
    requires some { 0 < length steering.old.passes.items }
    requires serve { All (G.serves gate.now) steering.old.passes.items }
    ensures turn { IsTurn (G.serves gate.now) G.tally result
        (known_with (W.known with.old) (K.known sink.old)) world.old steering.old.passes.items
        (known_with (W.known with.new) (K.known sink.new)) world.new steering.new.passes.items }
    ensures left { steering.new.pace.left ≡ steering.old.pace.left }
    ensures steps { steering.new.pace.steps ≡ steering.old.pace.steps }
{
    let before = world.board().now();
    if let Some(end) = pass_round(alloc, world, with, None, sink) {
        return Some(end);
    }
    if world.hart_count() > HART_LIMIT {
        return None;
    }
    let began = world.board().now();
    let most = most_each(world, steering.pace.steps);
    let mut turn = Turn::of_rounds(most, MOST_OF_BURST);
    let passes = &mut steering.passes;
    let end = run_and_pass(alloc, world, with, gate, passes, &mut turn, sink);
    let ended = world.board().now();
    steering.pace.told_rotation(turn.made, before, began, ended);
    end
}
