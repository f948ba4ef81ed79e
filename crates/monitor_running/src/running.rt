// Turns of a machine until a gate is closed.
ghost use Rattle.std.specs.Prelude.{◌≡◌, ◌≢◌, ◌⊎◌, ◌↔◌, ◌≤◌, ◌<◌, ◌+◌, true, length, All, IfOk, None, OnErr, Some};
ghost use Rattle.vm_host.specs.Telling as clocks;
ghost use Rattle.flat_guest.specs.Guest.{Guest};
ghost use Rattle.vm_world.specs.Worlds.{IsSameButSpare, IsWorld};
ghost use Rattle.slice_runner.specs.Slices.{ClockWasAsked, DevicesAnswered, IsSerial, IsThere, acting};
ghost use Rattle.slice_runner.specs.Stops.{AreStopped};
ghost use Rattle.monitor_machine.specs.State.{IsLive};
ghost use Rattle.monitor_running.specs.Devices.{AnswersDevice, IsDevices, WereAsked};
ghost use Rattle.monitor_running.specs.declared.ran.Ran.TheVariants as ran;
ghost use Rattle.monitor_running.specs.Passes.{ArePassed};
ghost use Rattle.monitor_running.specs.Ran.{IsOff, Went};
ghost use Rattle.monitor_running.specs.Objects.{known_with, with_clock, with_devices, with_host};
ghost use Rattle.monitor_running.specs.Paced.{AreSeveral, EndsPaced, HasActed, IsMachineTurn, IsPaced, IsWorldTurn, acting_in, slice_steps};
ghost use Rattle.monitor_running.specs.Pacing.{ask_time};
ghost use Rattle.monitor_running.specs.Reached.{Known};
ghost use Rattle.monitor_running.specs.Turned.{IsTurn, IsTurnPart};

use crate::alone::{MOST_ALONE, Turn, lone_hart, run_alone};
use crate::devices::{run_devices, settle_behind};
use crate::gating::is_open;
use crate::objects::TurnObjects;
use crate::pacing::Pace;
use crate::ran::Ran;
use crate::rotating::run_in_rotation;
use crate::steering::Steering;
use crate::telling::tell_slice;
use crate::waiting::{all_wait, pass_round, time_left};
use crate::working::device_works;
use guest_memory::HART_LIMIT;
use monitor_machine::LiveMachine;
use pause_gate::Gate;
use port_table::MOST_DEVICES;
use slice_runner::{Devices, Slice, run_slice};
use std::alloc::{AllocError, Global};
use std::sync::Wait;
use std::thread::Threads;
use vm_host::Clock;
use vm_outside::Sink;
use vm_types::Entry;
use vm_world::World;

/// All actors of a slice together make at most so many steps, so that their journals take some 45 MiB at most.
const MOST_STEPS: u32 = 65_536;

/// Before a slice a device makes at most so many events, which move some 128 KiB between memory and a disk: the harts wait for
/// no more of them.
const MOST_EVENTS: u32 = 4_096;

/// And all devices together so many, whose list takes some 4 MiB.
const MOST_EVENTS_OF_ALL: u32 = 16_384;

// Whether each actor of the world has a pass.
fn has_passes(world: &World, passes: usize) -> bool
    ensures { (result ≡ true) ↔ ((length world.now.harts ≤ 32) × (length world.now.harts + 1 ≤ passes)) }
{
    let harts = world.hart_count();
    harts <= HART_LIMIT && harts < passes
}

// Whether the devices act in a slice with so many passes. One device alone does, where each actor has a pass: of two it isn't known
// whether their calls are in the order of the slice's events.
fn who_acts(world: &World, passes: usize) -> Devices
    requires { length world.now.harts ≤ 32 }
    ensures { acting result world.now ≡ acting_in passes world.now }
{
    let devices = world.devices().len();
    if devices <= 1 && world.hart_count() + devices < passes {
        Devices::Act
    } else {
        Devices::Rest
    }
}

// So many steps of each actor as are asked for, or as many as a slice has room for.
fn steps_each(world: &World, how: Devices, steps: u32) -> u32
    requires { (length world.now.harts ≤ 32) × (acting how world.now ≤ 16) }
    ensures { result ≡ slice_steps steps (acting how world.now) world.now }
{
    let devices = how.acting(world.devices().len());
    let actors = world.hart_count() as u32 + (devices as u32 + 1);
    steps.min(MOST_STEPS / actors)
}

// A slice, for which the clock and what devices ask are lent.
fn slice_by<Q: Send + Drop, W: TurnObjects, G: Gate<Pass = Q> + Sync, R: Threads + Wait + Sync>(
    rt: &R,
    alloc: Global,
    world: &mut World,
    with: &mut W,
    how: Devices,
    gate: &G,
    passes: &mut Vec<Q>,
    steps: u32,
) -> Result<Slice, AllocError>
    requires actors { (length world.old.harts ≤ 32) × (acting how world.old ≤ 16) }
    requires passes { length world.old.harts + (acting how world.old + 1) ≤ length passes.old.items }
    requires serve { All (G.serves gate.now) passes.old.items }
    ensures serial { IfOk result (λ slice. IsSerial world.old slice.events.items world.new) }
    ensures actors { IfOk result (λ slice. All (λ e. IsThere (length world.old.harts) (acting how world.old) e.actor) slice.events.items) }
    ensures stops { IfOk result (λ slice. AreStopped G.tally steps (acting how world.old)
        world.old slice.events.items world.new slice.stops.items passes.old.items passes.new.items) }
    ensures clock { IfOk result (λ slice.
        ClockWasAsked (W.known with.old).host.clock slice.events.items (W.known with.new).host.clock) }
    ensures answered { IfOk result (λ slice. DevicesAnswered AnswersDevice slice.events.items 0 (acting how world.old)
        (W.known with.old).host.devices (W.known with.new).host.devices) }
    ensures failed { OnErr result (IsSameButSpare world.old world.new
        × ((W.known with.new).host ≡ (W.known with.old).host) × (passes.new.items ≡ passes.old.items)) }
    ensures serve { All (G.serves gate.now) passes.new.items }
    ensures same { length passes.new.items ≡ length passes.old.items }
    ensures beside { W.known with.new ≡ with_host (W.known with.old) (W.known with.new).host }
{
    let host = with.host();
    run_slice(
        rt,
        alloc,
        world,
        &mut host.clock,
        &mut host.devices,
        how,
        gate,
        passes,
        steps,
    )
}

// One slice of a guest, its events and a drain.
fn run_guest<
    Q: Send + Drop,
    W: TurnObjects,
    G: Gate<Pass = Q> + Sync,
    K: Sink,
    R: Threads + Wait + Sync,
>(
    rt: &R,
    alloc: Global,
    world: &mut World,
    with: &mut W,
    gate: &G,
    steering: &mut Steering<Q>,
    sink: &mut K,
) -> Option<Ran>
    requires harts { length world.old.harts ≤ 32 }
    requires passes { length world.old.harts + 1 ≤ length steering.old.passes.items }
    requires serve { All (G.serves gate.now) steering.old.passes.items }
    ensures turn { IsTurn (G.serves gate.now) G.tally result
        (known_with (W.known with.old) (K.known sink.old)) world.old steering.old.passes.items
        (known_with (W.known with.new) (K.known sink.new)) world.new steering.new.passes.items }
    ensures paced { AreSeveral (length steering.old.passes.items) world.old → steering.old.pace.left ≡ 0 →
        IsPaced G.tally result steering.old world.old steering.new world.new }
    ensures steps { steering.new.pace.steps ≡ steering.old.pace.steps }
{
    let began = world.board().now();
    let how = who_acts(world, steering.passes.len());
    let each = steps_each(world, how, steering.pace.steps);
    let passes = &mut steering.passes;
    let Ok(slice) = slice_by(rt, alloc, world, with, how, gate, passes, each) else {
        return Some(Ran::OutOfMemory);
    };
    settle_behind(with, how);
    let end = tell_slice(slice.events.as_slice(), world, with, sink);
    let ended = world.board().now();
    steering
        .pace
        .told_slice(slice.events.len() as u64, began, ended);
    end
}

// So many events of each device that is there.
fn events_each(world: &World) -> u32
    ensures { result ≤ 4096 }
{
    let devices = world.devices().len().clamp(1, MOST_DEVICES) as u32;
    MOST_EVENTS.min(MOST_EVENTS_OF_ALL / devices)
}

// The devices act, and the pace is told.
fn devices_by<W: TurnObjects>(
    alloc: Global,
    world: &mut World,
    with: &mut W,
    pace: &mut Pace,
    most: u32,
) -> Result<Vec<Entry>, AllocError>
    ensures gone { IfOk result (λ events. IsSerial world.old events.items world.new) }
    ensures made { IfOk result (λ events. (g : Guest) → IsWorld world.old g → All IsDevices events.items) }
    ensures asked { IfOk result (λ events. (g : Guest) → IsWorld world.old g →
        WereAsked (W.known with.old).host.devices events.items (W.known with.new).host.devices) }
    ensures world { OnErr result (world.new ≡ world.old) }
    ensures unasked { OnErr result ((W.known with.new).host.devices ≡ (W.known with.old).host.devices) }
    ensures beside { W.known with.new ≡ with_devices (W.known with.old) (W.known with.new).host.devices }
    ensures told { IfOk result (λ events. pace.new ≡ record pace.old { is_timed = ask_time events.items }) }
    ensures untold { OnErr result (pace.new ≡ pace.old) }
{
    match run_devices(alloc, world, with, most) {
        Ok(events) => {
            pace.told_devices(events.as_slice());
            Ok(events)
        }
        Err(error) => Err(error),
    }
}

// The devices act, and a drain.
fn act<W: TurnObjects, K: Sink>(
    alloc: Global,
    world: &mut World,
    with: &mut W,
    pace: &mut Pace,
    sink: &mut K,
) -> Option<Ran>
    ensures part { IsTurnPart result
        (known_with (W.known with.old) (K.known sink.old)) world.old
        (known_with (W.known with.new) (K.known sink.new)) world.new }
    ensures acted { result ≡ None → HasActed world.old world.new }
    ensures timed { pace.new ≡ record pace.old { is_timed = pace.new.is_timed } }
{
    let each = events_each(world);
    let Ok(events) = devices_by(alloc, world, with, pace, each) else {
        return Some(Ran::OutOfMemory);
    };
    tell_slice(events.as_slice(), world, with, sink)
}

// The clock rests, where every hart waits still and no device has something to do, until the next timer interrupt is due at most, and
// no longer than the pace has it.
fn rest_where_all_wait<W: TurnObjects>(world: &World, with: &mut W, pace: &Pace)
    ensures rests { clocks.Lasts (W.known with.old).host.clock (W.known with.new).host.clock }
    ensures beside { W.known with.new ≡ with_clock (W.known with.old) (W.known with.new).host.clock }
{
    if world.hart_count() <= HART_LIMIT && all_wait(world) && !device_works(world) {
        let most = pace.most_rest(time_left(world.board()));
        with.clock().rest(most);
    }
}

// The clock rests until something comes from outside.
fn rest_long<W: TurnObjects>(with: &mut W)
    ensures rests { clocks.Lasts (W.known with.old).host.clock (W.known with.new).host.clock }
    ensures beside { W.known with.new ≡ with_clock (W.known with.old) (W.known with.new).host.clock }
{
    with.clock().rest(u64::MAX);
}

// Time passes, and the clock rests where that woke no hart.
fn wait<W: TurnObjects, K: Sink>(
    alloc: Global,
    world: &mut World,
    with: &mut W,
    pace: &Pace,
    sink: &mut K,
) -> Option<Ran>
    requires { length world.old.harts ≤ 32 }
    ensures { IsTurnPart result
        (known_with (W.known with.old) (K.known sink.old)) world.old
        (known_with (W.known with.new) (K.known sink.new)) world.new }
{
    if let Some(end) = pass_round(alloc, world, with, None, sink) {
        return Some(end);
    }
    rest_where_all_wait(world, with, pace);
    None
}

// A turn of several harts: a slice, or a rotation.
fn run_several<
    Q: Send + Drop,
    W: TurnObjects,
    G: Gate<Pass = Q> + Sync,
    K: Sink,
    R: Threads + Wait + Sync,
>(
    rt: &R,
    alloc: Global,
    world: &mut World,
    with: &mut W,
    gate: &G,
    steering: &mut Steering<Q>,
    sink: &mut K,
) -> Option<Ran>
    requires harts { length world.old.harts ≤ 32 }
    requires passes { length world.old.harts + 1 ≤ length steering.old.passes.items }
    requires serve { All (G.serves gate.now) steering.old.passes.items }
    ensures turn { IsTurn (G.serves gate.now) G.tally result
        (known_with (W.known with.old) (K.known sink.old)) world.old steering.old.passes.items
        (known_with (W.known with.new) (K.known sink.new)) world.new steering.new.passes.items }
    ensures paced { AreSeveral (length steering.old.passes.items) world.old →
        IsPaced G.tally result steering.old world.old steering.new world.new }
    ensures steps { steering.new.pace.steps ≡ steering.old.pace.steps }
{
    if steering.pace.is_slice_due() {
        return run_guest(rt, alloc, world, with, gate, steering, sink);
    }
    run_in_rotation(alloc, world, with, gate, steering, sink)
}

// A turn of several harts, where each hart and the timer has a pass and two harts have something to do. A turn of one hart, where it
// alone has; and else time passes.
fn run_or_wait<
    Q: Send + Drop,
    W: TurnObjects,
    G: Gate<Pass = Q> + Sync,
    K: Sink,
    R: Threads + Wait + Sync,
>(
    rt: &R,
    alloc: Global,
    world: &mut World,
    with: &mut W,
    gate: &G,
    steering: &mut Steering<Q>,
    sink: &mut K,
) -> Option<Ran>
    requires { All (G.serves gate.now) steering.old.passes.items }
    ensures turn { IsTurn (G.serves gate.now) G.tally result
        (known_with (W.known with.old) (K.known sink.old)) world.old steering.old.passes.items
        (known_with (W.known with.new) (K.known sink.new)) world.new steering.new.passes.items }
    ensures paced { IsPaced G.tally result steering.old world.old steering.new world.new }
    ensures steps { steering.new.pace.steps ≡ steering.old.pace.steps }
{
    if !has_passes(world, steering.passes.len()) {
        rest_long(with);
        return None;
    }
    if all_wait(world) {
        return wait(alloc, world, with, &steering.pace, sink);
    }
    if let Some(hart) = lone_hart(world) {
        let mut turn = Turn::new(hart, steering.pace.steps.min(MOST_ALONE));
        let passes = &mut steering.passes;
        return run_alone(alloc, world, with, gate, passes, &mut turn, sink);
    }
    run_several(rt, alloc, world, with, gate, steering, sink)
}

// Whether the next turn is a slice with so many passes in which devices act.
fn act_beside(world: &World, passes: usize, pace: &Pace) -> bool {
    if pace.left != 0 || !has_passes(world, passes) {
        return false;
    }
    if all_wait(world) || lone_hart(world).is_some() {
        return false;
    }
    who_acts(world, passes).acting(world.devices().len()) != 0
}

// The devices act before the harts and the timer, unless they do beside them.
fn act_before<W: TurnObjects, K: Sink>(
    alloc: Global,
    world: &mut World,
    with: &mut W,
    passes: usize,
    pace: &mut Pace,
    sink: &mut K,
) -> Option<Ran>
    ensures part { IsTurnPart result
        (known_with (W.known with.old) (K.known sink.old)) world.old
        (known_with (W.known with.new) (K.known sink.new)) world.new }
    ensures acted { result ≡ None → HasActed world.old world.new }
    ensures timed { pace.new ≡ record pace.old { is_timed = pace.new.is_timed } }
{
    if act_beside(world, passes, pace) {
        return None;
    }
    act(alloc, world, with, pace, sink)
}

// The devices act, and then the harts and the timer; or all of them do in a slice.
fn run_world<
    Q: Send + Drop,
    W: TurnObjects,
    G: Gate<Pass = Q> + Sync,
    K: Sink,
    R: Threads + Wait + Sync,
>(
    rt: &R,
    alloc: Global,
    world: &mut World,
    with: &mut W,
    gate: &G,
    steering: &mut Steering<Q>,
    sink: &mut K,
) -> Option<Ran>
    requires { All (G.serves gate.now) steering.old.passes.items }
    ensures turn { IsTurn (G.serves gate.now) G.tally result
        (known_with (W.known with.old) (K.known sink.old)) world.old steering.old.passes.items
        (known_with (W.known with.new) (K.known sink.new)) world.new steering.new.passes.items }
    ensures paced { IsWorldTurn G.tally result steering.old world.old steering.new world.new }
    ensures steps { steering.new.pace.steps ≡ steering.old.pace.steps }
{
    let passes = steering.passes.len();
    if let Some(end) = act_before(alloc, world, with, passes, &mut steering.pace, sink) {
        return Some(end);
    }
    run_or_wait(rt, alloc, world, with, gate, steering, sink)
}

/// One turn of a machine. Before it the devices act without the gate (`run_devices`), each of them 4,096 events at most, and all of
/// them 16,384; but where the turn is a slice in which devices act, none of them acts before it. Answers why turns end, or `None` where they may go on; it is `Off` where the guest is off, of which no turn is made.
/// That the gate is closed is no end here.
///
/// Where two harts or more have something to do the turn is a slice, of the pace's `steps` at most of each actor, and 65,536 of all of
/// them. A device acts in it, in the timer's thread and behind it, where it is the only one of the machine and has a pass too; its
/// disk settles behind the slice. An actor asks the gate with a pass of its own before each step. Or it is a rotation, in one thread: two events of the timer
/// and of each hart, then events of one hart after another, and the two events of each once more. The pace says which (`Pace`): a
/// rotation where it made its events in less time than a slice when both were made last, and a slice the first time, and once in
/// 10,001 turns at least. Where one hart alone has something to do, and each other one waits, it is two events of the timer and of each
/// other hart, and then, where these wait still, events of that hart. In one thread a hart has events until it waits or the gate is
/// closed, which is asked with the first pass after every 255 of them, `steps` at most, and 49,152 of all harts: no slice is opened. Where every hart waits it is two events of the timer and of each
/// hart, without the gate, and where all of them wait still, the clock rests, until the next timer interrupt is due at most, and a
/// millisecond where a device asked guest time, as one does whose chain waits for it. It rests
/// too where no guest runs, and where there are fewer passes than actors or more harts than a slice has (no start and no load makes so
/// many). Nothing is said of time.
///
/// Each event goes to the trace, as `step ACTOR 1`, or `reply ACTOR R` with the answer of a host object; then, where the
/// console holds anything, `console` goes there too, and then what it held goes to the sink, as it is. Where the sink isn't ready
/// the console of a guest that is on keeps what it holds, for a later turn.
pub fn run_once<
    Q: Send + Drop,
    W: TurnObjects,
    G: Gate<Pass = Q> + Sync,
    K: Sink,
    R: Threads + Wait + Sync,
>(
    rt: &R,
    alloc: Global,
    machine: &mut LiveMachine,
    with: &mut W,
    gate: &G,
    steering: &mut Steering<Q>,
    sink: &mut K,
) -> Option<Ran>
    requires { All (G.serves gate.now) steering.old.passes.items }
    ensures went { Went IsLive result
        (known_with (W.known with.old) (K.known sink.old)) machine.old
        (known_with (W.known with.new) (K.known sink.new)) machine.new }
    ensures passes { ArePassed (G.serves gate.now) G.tally result steering.old.passes.items steering.new.passes.items }
    ensures off { IsOff machine.old → result ≡ Some ran.Off }
    ensures unclosed { result ≢ Some ran.Closed }
    ensures paced { IsMachineTurn G.tally result steering.old machine.old steering.new machine.new }
    ensures steps { steering.new.pace.steps ≡ steering.old.pace.steps }
{
    if machine.is_off() {
        return Some(Ran::Off);
    }
    let Some(mut world) = machine.take_running() else {
        // (what the sink took and held back may go on by that)
        let _ = sink.ready();
        rest_long(with);
        return None;
    };
    let end = run_world(rt, alloc, &mut world, with, gate, steering, sink);
    machine.put_guest(world);
    end
}

/// Why turns end at a closed gate: `Closed` where the guest is on, and `Off` where it is off.
pub fn end_of_closed(machine: &LiveMachine) -> Ran
    ensures went { (k : Known) → Went IsLive (Some result) k machine.now k machine.now }
    ensures off { IsOff machine.now → result ≡ ran.Off }
    ensures ends { (result ≡ ran.Closed) ⊎ (result ≡ ran.Off) }
{
    if machine.is_off() {
        Ran::Off
    } else {
        Ran::Closed
    }
}

/// Turns of a machine, each by `run_once`, until the gate is closed, which is asked with the first pass before each. The pace goes on from
/// the turns before: behind a new one the first turn in which two harts have something to do is a slice.
/// `Closed` is answered where the guest is on, and `Off` where it is off.
pub fn run_while<
    Q: Send + Drop,
    W: TurnObjects,
    G: Gate<Pass = Q> + Sync,
    K: Sink,
    R: Threads + Wait + Sync,
>(
    rt: &R,
    alloc: Global,
    machine: &mut LiveMachine,
    with: &mut W,
    gate: &G,
    steering: &mut Steering<Q>,
    sink: &mut K,
) -> Ran
    requires some { 0 < length steering.old.passes.items }
    requires serve { All (G.serves gate.now) steering.old.passes.items }
    ensures went { Went IsLive (Some result)
        (known_with (W.known with.old) (K.known sink.old)) machine.old
        (known_with (W.known with.new) (K.known sink.new)) machine.new }
    ensures off { IsOff machine.old → result ≡ ran.Off }
    ensures passes { ArePassed (G.serves gate.now) G.tally (Some result) steering.old.passes.items steering.new.passes.items }
    ensures paced { EndsPaced (G.serves gate.now) G.tally result steering.old machine.old steering.new machine.new }
    ensures steps { steering.new.pace.steps ≡ steering.old.pace.steps }
{
    for _ in rt.forever() {
        if !is_open(gate, &mut steering.passes) {
            return end_of_closed(machine);
        }
        if let Some(end) = run_once(rt, alloc, machine, with, gate, steering, sink) {
            return end;
        }
    }
    unreachable!()
}
