// Turns of 64 steps, of one hart or in slices, until a gate closes or the guest is off. What a trace has of them is proved; that
// they are made and end, and that a machine which plays the trace on one thread stands as they left theirs, is shown here.
ghost use Rattle.std.specs.Prelude.{◌≡◌, ◌<◌, All, length};

use crate::images::{
    ADDS_AND_ENDS, ADDS_TO_ONE_WORD, ENDS, GO_THEIR_WAYS, WAITS_AND_ENDS, WRITES_AND_ENDS,
};
use crate::playing::{NOBODY, Player, are_alike, machine_of, play_all, word_at};
use crate::sessions::{no_link, no_vsock, no_words};
use crate::showing::text_of;
use crate::ticking::Ticks;
use monitor_machine::LiveMachine;
use monitor_running::{DeviceHost, Pace, Ran, Steering, TracedHost, TurnHost, run_while};
use outside_mem::{Failing, MemoryDisk, MemoryGuestWords, MemoryLink, MemorySink, MemoryVsock};
use pause_gate::{FlagGate, Gate, HoldGate, Party, Pass};
use std::alloc::{AllocError, Global};
use std::io;
use std::sync::Wait;
use std::thread::Threads;
use vm_types::{ActorId, PlaceId};
use vm_world::World;

/// What runs, and when the gate is closed: after so many items, or when its two parties have met.
#[derive(Clone, Copy, Drop)]
struct Row {
    name: &'static str,
    image: &'static [u8],
    is_alone: bool,
    has_device: bool,
    made: u64,
    left: u64,
    meets: bool,
    trace_fails: &'static [u64],
    consoles_alone: bool,
    sink_fails: &'static [u64],
}

/// Two harts until the guest is off, and nothing fails.
const TWO_HARTS: Row = Row {
    name: "two harts",
    image: &[],
    is_alone: false,
    has_device: false,
    made: 0,
    left: u64::MAX,
    meets: false,
    trace_fails: &[],
    consoles_alone: true,
    sink_fails: &[],
};

/// Both harts run, or the gate is closed at the start.
const SLICES: [Row; 4] = [
    Row {
        name: "slices of two harts that add",
        image: &ADDS_TO_ONE_WORD,
        left: 30_000,
        ..TWO_HARTS
    },
    Row {
        name: "slices of two harts that meet",
        image: &GO_THEIR_WAYS,
        made: 9,
        meets: true,
        ..TWO_HARTS
    },
    Row {
        name: "slices until the guest is off",
        image: &ADDS_AND_ENDS,
        ..TWO_HARTS
    },
    Row {
        name: "slices at a closed gate, the guest off",
        image: &ENDS,
        made: 40,
        left: 0,
        ..TWO_HARTS
    },
];

/// A device acts beside both harts.
const WITH_A_DEVICE: Row = Row {
    name: "slices with a device",
    image: &ADDS_TO_ONE_WORD,
    has_device: true,
    left: 30_000,
    ..TWO_HARTS
};

/// One hart alone runs, so that each item comes at its place.
const TURNS: [Row; 6] = [
    Row {
        name: "turns of one hart",
        image: &WRITES_AND_ENDS,
        is_alone: true,
        ..TWO_HARTS
    },
    Row {
        name: "turns of one hart that waits",
        image: &WAITS_AND_ENDS,
        is_alone: true,
        ..TWO_HARTS
    },
    Row {
        name: "turns beside a hart that stands",
        image: &WRITES_AND_ENDS,
        ..TWO_HARTS
    },
    Row {
        name: "turns with a trace that takes 40 items",
        image: &WRITES_AND_ENDS,
        is_alone: true,
        trace_fails: &[40],
        consoles_alone: false,
        ..TWO_HARTS
    },
    Row {
        name: "turns with a trace that takes no console",
        image: &WRITES_AND_ENDS,
        trace_fails: &[0],
        ..TWO_HARTS
    },
    Row {
        name: "turns with a sink that fails",
        image: &WRITES_AND_ENDS,
        sink_fails: &[0],
        ..TWO_HARTS
    },
];

pub fn print<R: Threads + Wait + Print + AllocGlobal + Sync>(rt: &R) -> io::Result<()> {
    for row in SLICES {
        print_row(rt, &row)?;
    }
    print_row(rt, &WITH_A_DEVICE)?;
    for row in TURNS {
        let taken = print_row(rt, &row)?;
        println!(rt; "{}: items => {taken}", row.name)?;
    }
    Ok(())
}

// How many items the trace took.
fn print_row<R: Threads + Wait + Print + AllocGlobal + Sync>(rt: &R, row: &Row) -> io::Result<u64> {
    let (flag, passes) = FlagGate::new(rt.alloc(), 4)?;
    let pace = Pace::new(64);
    let mut steering = Steering { passes, pace };
    let gate = gate_of(flag, row);
    let mut running = running_of(rt.alloc(), row, &gate)?;
    run_and_print(rt, row.name, &mut running, &gate, &mut steering)?;
    Ok(running.turns.trace.taken())
}

// Closed from the start where no item is to come.
fn gate_of(flag: FlagGate, row: &Row) -> HoldGate
    ensures { result.flag ≡ flag }
{
    if row.meets {
        return HoldGate::new(flag, party(0, 7), party(1, 512), 100_000_000);
    }
    let nobody = Party::of(NOBODY, PlaceId::Out);
    let gate = HoldGate::new(flag, nobody, party(0, 7), 0);
    if row.left == 0 {
        gate.inside(NOBODY, PlaceId::Out);
    }
    gate
}

fn party(hart: u8, page: u32) -> Party {
    Party::of(ActorId::Hart(hart), PlaceId::Page(page))
}

/// A machine, what it is handed while it runs, and another one, on which its trace is played.
#[derive(Drop)]
struct Running<'a> {
    machine: LiveMachine,
    other: LiveMachine,
    turns: TracedHost<MemoryDisk, MemoryLink, MemoryVsock, MemoryGuestWords, Ticks, Player<'a>>,
    sink: MemorySink,
}

fn running_of<'a>(alloc: Global, row: &Row, gate: &'a HoldGate) -> Result<Running<'a>, AllocError> {
    let sink_fails = Failing::new(row.sink_fails.to_vec(alloc)?);
    let player = player_of(alloc, row, gate)?;
    let machine = machine_of(alloc, row.is_alone, row.has_device, row.image, row.made)?;
    let other = machine_of(alloc, row.is_alone, row.has_device, row.image, row.made)?;
    Ok(Running {
        machine,
        other,
        turns: TracedHost {
            host: host_of(alloc),
            trace: player,
        },
        sink: MemorySink::new(alloc, usize::MAX, sink_fails),
    })
}

fn player_of<'a>(alloc: Global, row: &Row, gate: &'a HoldGate) -> Result<Player<'a>, AllocError> {
    let fails = Failing::new(row.trace_fails.to_vec(alloc)?);
    Ok(Player::new(alloc, row.left, gate, fails, row.consoles_alone))
}

// Without a disk, a link or a socket.
fn host_of(
    alloc: Global,
) -> TurnHost<MemoryDisk, MemoryLink, MemoryVsock, MemoryGuestWords, Ticks> {
    let devices = DeviceHost {
        disk: MemoryDisk::new(alloc, Vec::new(alloc), Failing::new(Vec::new(alloc))),
        link: no_link(alloc),
        vsock: no_vsock(alloc),
        guest_words: no_words(alloc),
    };
    TurnHost {
        devices,
        clock: Ticks::new(100),
    }
}

fn run_and_print<R: Threads + Wait + Print + AllocGlobal + Sync>(
    rt: &R,
    name: &str,
    running: &mut Running<'_>,
    gate: &HoldGate,
    steering: &mut Steering<Pass>,
) -> io::Result<()>
    requires some { 0 < length steering.old.passes.items }
    requires serve { All (λ pass. pass.0 ≡ gate.now.flag) steering.old.passes.items }
{
    let end = run(rt, running, gate, steering);
    println!(rt; "{name}: slices end => {end}")?;
    println!(rt; "{name}: the meeting => {:?}", gate.meeting())?;
    if running.turns.trace.is_mixed() {
        println!(rt; "{name}: a device acts beside harts")?;
    }
    print_running(rt, name, running)?;
    print_player(rt, name, running)
}

// Turns of 64 steps, and why they end.
fn run<R: Threads + Wait + AllocGlobal + Sync>(
    rt: &R,
    running: &mut Running<'_>,
    gate: &HoldGate,
    steering: &mut Steering<Pass>,
) -> &'static str
    requires some { 0 < length steering.old.passes.items }
    requires serve { All (λ pass. pass.0 ≡ gate.now.flag) steering.old.passes.items }
{
    let ran = run_while(
        rt,
        rt.alloc(),
        &mut running.machine,
        &mut running.turns,
        gate,
        steering,
        &mut running.sink,
    );
    end_of(&ran)
}

fn end_of(ran: &Ran) -> &'static str {
    match ran {
        Ran::Closed => "closed",
        Ran::Off => "off",
        Ran::TraceFailed => "the trace failed",
        Ran::SinkFailed => "the sink failed",
        Ran::OutOfMemory => "no memory",
    }
}

fn print_running<R: Print + AllocGlobal>(
    rt: &R,
    name: &str,
    running: &mut Running<'_>,
) -> io::Result<()> {
    let asked = running.turns.host.clock.asked();
    let untold = asked.wrapping_sub(running.turns.trace.moments());
    println!(rt; "{name}: moments that were not told => {untold}")?;
    println!(rt;
        "{name}: the sink took => {:?}",
        text_of(running.sink.taken())
    )?;
    let answered = play_all(rt.alloc(), &mut running.other, running.turns.trace.told())?;
    println!(rt;
        "{name}: the player answered => {:?}",
        text_of(answered.as_slice())
    )
}

fn print_player<R: Print>(rt: &R, name: &str, running: &mut Running<'_>) -> io::Result<()> {
    let world = running.machine.take_running();
    match (world, running.other.take_running()) {
        (Some(world), Some(other)) => print_worlds(rt, name, &world, &other),
        _ => println!(rt; "{name}: a machine has no world"),
    }
}

fn print_worlds<R: Print>(rt: &R, name: &str, world: &World, other: &World) -> io::Result<()> {
    println!(rt; "{name}: played alike => {}", are_alike(world, other))?;
    println!(rt; "{name}: the word => {:?}", word_at(world, 0x8021_0018))
}
