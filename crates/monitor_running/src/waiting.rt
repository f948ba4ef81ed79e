// A round of the timer and a look of each hart that waits, one after another, and no slice.
ghost use Rattle.std.specs.Prelude.{
  ℕ,
  ◌≡◌,
  ◌+◌,
  ◌≤◌,
  ◌<◌,
  ◌-◌,
  ◌⊎◌,
  ◌↔◌,
  true,
  List,
  Some,
  [],
  ◌∷◌,
  ◌++◌,
  IfOk,
  OnErr,
  length,
  vec_capacity,
  vec_len,
};
ghost use Rattle.vm_types.specs.declared.op.Op.TheVariants.{Idle};
ghost use Rattle.vm_host.specs.Telling.{ClockKnown};
ghost use Rattle.flat_guest.specs.Guest.{Guest};
ghost use Rattle.guest_pages.specs.Made.{HasRoom, Spends};
ghost use Rattle.vm_world.specs.Worlds.{IsWorld, WorldValue, pages_of, want_in};
ghost use Rattle.monitor_running.specs.Objects.{known_with, with_clock};
ghost use Rattle.monitor_running.specs.Waiting.{AllIdle, HasGone, HasMade, IsLeft, IsQuiet, hart_turn, is_left_out, makers, takes_turn, turns};
ghost use Rattle.monitor_running.specs.Turned.{IsTurnPart};

use crate::objects::TurnObjects;
use crate::ran::Ran;
use crate::telling::tell_slice;
use guest_memory::HART_LIMIT;
use line_board::Board;
use monitor_machine::LiveMachine;
use slice_runner::ask_clock;
use std::alloc::{AllocError, Global};
use vm_host::Clock;
use vm_outside::Sink;
use vm_types::{ActorId, Entry, Op};
use vm_world::World;

/// Whether the hart of this number is there and waits.
pub fn waits(world: &World, hart: u8) -> bool
    ensures { (result ≡ true) ↔ (want_in world.now (ActorId.Hart hart) ≡ Some Idle) }
{
    matches!(world.want(ActorId::Hart(hart)), Some(Op::Idle))
}

/// Whether every hart waits, so that only time is to pass.
pub fn all_wait(world: &World) -> bool
    requires { length world.now.harts ≤ 32 }
    ensures { (result ≡ true) ↔ AllIdle world.now }
{
    for number in 0..world.hart_count() {
        if !waits(world, number as u8) {
            return false;
        }
    }
    true
}

/// Whether nothing runs but time and devices: no guest runs, or each of its harts waits. A guest of more harts than a slice has
/// doesn't run.
pub fn is_quiet(machine: &LiveMachine) -> bool
    ensures { (result ≡ true) ↔ IsQuiet machine.now }
{
    match machine.running() {
        Some(world) => world.hart_count() > HART_LIMIT || all_wait(world),
        None => true,
    }
}

/// Guest time that is left until the next timer interrupt is due, in nanoseconds: until the first of the moments that are not
/// over. Where there is none, it is without end.
pub(crate) fn time_left(board: &Board) -> u64
    ensures { IsLeft board.now.now board.now.deadlines result }
{
    left_of(board.now(), board.deadlines())
}

fn left_of(now: u64, moments: &[u64]) -> u64
    ensures { IsLeft now moments.now result }
{
    let mut left = u64::MAX;
    for moment in moments {
        left = left_until(left, now, *moment);
    }
    left
}

// No more than is left until this moment, if it isn't over.
fn left_until(left: u64, now: u64, moment: u64) -> u64
    ensures least { now < moment → result ≤ moment - now }
    ensures less { result ≤ left }
    ensures one { (result ≡ left) ⊎ ((now < moment) × (result ≡ moment - now)) }
{
    if moment > now {
        left.min(moment - now)
    } else {
        left
    }
}

// The next event of an actor, which is given the clock's answer where it asks for that.
fn step_once<C: Clock>(world: &mut World, actor: ActorId, clock: &mut C, events: &mut Vec<Entry>)
    requires list { vec_len events.old + 1 ≤ vec_capacity events.old }
    requires room { HasRoom 1 (pages_of world.old) }
    ensures gone { (first : WorldValue) (asked : ClockKnown) →
        HasGone events.old.items first world.old asked (C.known clock.old) →
        HasGone events.new.items first world.new asked (C.known clock.new) }
    ensures made { (first : WorldValue) (actors : List ActorId) →
        ((g : Guest) → IsWorld first g → takes_turn g actor ≡ true) →
        HasMade actors events.old.items first world.old →
        HasMade (actors ++ actor ∷ []) events.new.items first world.new }
    ensures room { vec_capacity events.new ≡ vec_capacity events.old }
    ensures most { vec_len events.new ≤ vec_len events.old + 1 }
    ensures spends { Spends 1 (pages_of world.old) (pages_of world.new) }
{
    let Some(op) = world.want(actor) else {
        return;
    };
    let given = ask_clock(clock, &op);
    match world.step_with(actor, op, given) {
        Ok(entry) => events.push_reserved(entry),
        Err(_) => {}
    }
}

// Its next two events: a question to the clock and an advance, or a wait and a look.
fn step_twice<C: Clock>(world: &mut World, actor: ActorId, clock: &mut C, events: &mut Vec<Entry>)
    requires list { vec_len events.old + 2 ≤ vec_capacity events.old }
    requires room { HasRoom 2 (pages_of world.old) }
    ensures gone { (first : WorldValue) (asked : ClockKnown) →
        HasGone events.old.items first world.old asked (C.known clock.old) →
        HasGone events.new.items first world.new asked (C.known clock.new) }
    ensures made { (first : WorldValue) (actors : List ActorId) →
        ((g : Guest) → IsWorld first g → takes_turn g actor ≡ true) →
        HasMade actors events.old.items first world.old →
        HasMade (actors ++ actor ∷ actor ∷ []) events.new.items first world.new }
    ensures room { vec_capacity events.new ≡ vec_capacity events.old }
    ensures most { vec_len events.new ≤ vec_len events.old + 2 }
    ensures spends { Spends 2 (pages_of world.old) (pages_of world.new) }
{
    step_once(world, actor, clock, events);
    step_once(world, actor, clock, events);
}

fn is_left_out(but: Option<u8>, hart: u8) -> bool
    ensures { result ≡ is_left_out but hart }
{
    match but {
        Some(alone) => alone == hart,
        None => false,
    }
}

// Two events of a hart that isn't left out.
fn step_hart<C: Clock>(
    world: &mut World,
    but: Option<u8>,
    hart: u8,
    clock: &mut C,
    events: &mut Vec<Entry>,
)
    requires list { vec_len events.old + 2 ≤ vec_capacity events.old }
    requires room { HasRoom 2 (pages_of world.old) }
    ensures gone { (first : WorldValue) (asked : ClockKnown) →
        HasGone events.old.items first world.old asked (C.known clock.old) →
        HasGone events.new.items first world.new asked (C.known clock.new) }
    ensures made { (first : WorldValue) (actors : List ActorId) →
        ((g : Guest) → IsWorld first g → takes_turn g (ActorId.Hart hart) ≡ true) →
        HasMade actors events.old.items first world.old →
        HasMade (actors ++ hart_turn but hart) events.new.items first world.new }
    ensures room { vec_capacity events.new ≡ vec_capacity events.old }
    ensures most { vec_len events.new ≤ vec_len events.old + 2 }
    ensures spends { Spends 2 (pages_of world.old) (pages_of world.new) }
{
    if !is_left_out(but, hart) {
        step_twice(world, ActorId::Hart(hart), clock, events);
    }
}

// Two events of the timer, and then of each hart that isn't left out, in order, whatever they want. An `Err` leaves everything as
// it was.
fn pass_time<C: Clock>(
    alloc: Global,
    world: &mut World,
    but: Option<u8>,
    clock: &mut C,
) -> Result<Vec<Entry>, AllocError>
    requires { length world.old.harts ≤ 32 }
    ensures gone { IfOk result (λ events.
        HasGone events.items world.old world.new (C.known clock.old) (C.known clock.new)) }
    ensures made { IfOk result (λ events. (g : Guest) → IsWorld world.old g →
        makers events.items ≡ turns but (length world.old.harts)) }
    ensures world { OnErr result (world.new ≡ world.old) }
    ensures clock { OnErr result (C.known clock.new ≡ C.known clock.old) }
{
    let harts = world.hart_count();
    let mut events = Vec::with_capacity(alloc, 2 * harts + 2)?;
    world.reserve(alloc, 2 * harts as u64 + 2)?;
    step_twice(world, ActorId::Timer, clock, &mut events);
    for number in 0..harts {
        step_hart(world, but, number as u8, clock, &mut events);
    }
    Ok(events)
}

// The same, for which the clock is lent.
fn pass_by<W: TurnObjects>(
    alloc: Global,
    world: &mut World,
    but: Option<u8>,
    with: &mut W,
) -> Result<Vec<Entry>, AllocError>
    requires { length world.old.harts ≤ 32 }
    ensures gone { IfOk result (λ events.
        HasGone events.items world.old world.new (W.known with.old).host.clock (W.known with.new).host.clock) }
    ensures made { IfOk result (λ events. (g : Guest) → IsWorld world.old g →
        makers events.items ≡ turns but (length world.old.harts)) }
    ensures world { OnErr result (world.new ≡ world.old) }
    ensures clock { OnErr result ((W.known with.new).host.clock ≡ (W.known with.old).host.clock) }
    ensures beside { W.known with.new ≡ with_clock (W.known with.old) (W.known with.new).host.clock }
{
    pass_time(alloc, world, but, with.clock())
}

/// Two events of the timer, and then of each hart but the one that is left out, in order, whatever they want, and a drain.
pub fn pass_round<W: TurnObjects, K: Sink>(
    alloc: Global,
    world: &mut World,
    with: &mut W,
    but: Option<u8>,
    sink: &mut K,
) -> Option<Ran>
    requires { length world.old.harts ≤ 32 }
    ensures { IsTurnPart result
        (known_with (W.known with.old) (K.known sink.old)) world.old
        (known_with (W.known with.new) (K.known sink.new)) world.new }
{
    let Ok(events) = pass_by(alloc, world, but, with) else {
        return Some(Ran::OutOfMemory);
    };
    tell_slice(events.as_slice(), world, with, sink)
}
