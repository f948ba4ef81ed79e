// Why the harts stop in a slice, and what comes home behind it: the mark of a page, and each port at its place.
ghost use Rattle.std.specs.Prelude.{◌≡◌, All};

use crate::failing::FailingObjects;
use crate::gates::pass_of;
use crate::worlds::{clock, two_drives, two_harts};
use pause_gate::{FlagGate, Pass};
use slice_runner::{Devices, Slice, Stop, run_slice};
use std::io;
use std::sync::Wait;
use std::thread::Threads;
use vm_types::ActorId;
use vm_world::World;

// Hart 0 writes to page 0, and then fills the console's ring. The other hart isn't started.
const FILLS_THE_RING: [u8; 24] = [
    0x97, 0x02, 0xe0, 0xff, 0x23, 0xa0, 0x52, 0x00, 0x93, 0x08, 0x10, 0x00, 0x13, 0x05, 0x40, 0x04,
    0x73, 0x00, 0x00, 0x00, 0x6f, 0xf0, 0xdf, 0xff,
];

// Hart 0 turns the machine off.
const ENDS: [u8; 28] = [
    0xb7, 0x58, 0x52, 0x53, 0x93, 0x88, 0x48, 0x35, 0x13, 0x05, 0x00, 0x00, 0x93, 0x05, 0x00, 0x00,
    0x73, 0x00, 0x00, 0x00, 0x73, 0x00, 0x50, 0x10, 0x6f, 0xf0, 0xdf, 0xff,
];

// Hart 0 writes to page after page, from page 0 on.
const WRITES_TO_PAGES: [u8; 20] = [
    0x97, 0x02, 0xe0, 0xff, 0x37, 0x13, 0x00, 0x00, 0x23, 0xa0, 0x52, 0x00, 0xb3, 0x82, 0x62, 0x00,
    0x6f, 0xf0, 0x9f, 0xff,
];

/// How far a hart runs, and four slices: at a closed gate, one in which the ring is filled, one in which devices act, and one in which
/// blanks are used up.
pub fn print<R: Threads + Wait + Print + AllocGlobal + Sync>(rt: &R) -> io::Result<()> {
    print_off(rt)?;
    print_slices(rt)?;
    print_devices(rt)?;
    print_blanks(rt)
}

// Five instructions are fetched, and one of them is a call.
fn print_off<R: Print + AllocGlobal>(rt: &R) -> io::Result<()> {
    let Some(mut world) = two_harts(rt.alloc(), &ENDS) else {
        return println!(rt; "no world");
    };
    world.reserve(rt.alloc(), 100)?;
    let made = world.run(ActorId::Hart(0), 100).ok();
    println!(rt; "off: events of a hundred => {made:?}")
}

fn print_slices<R: Threads + Wait + Print + AllocGlobal + Sync>(rt: &R) -> io::Result<()> {
    let (gate, mut passes) = FlagGate::new(rt.alloc(), 4)?;
    let Some(mut world) = two_drives(rt.alloc(), &FILLS_THE_RING) else {
        return println!(rt; "no world");
    };
    let Some(mut closer) = pass_of(&gate, &mut passes) else {
        return println!(rt; "no pass");
    };
    gate.close(&mut closer);
    print_slice(rt, "at a closed gate", &mut world, &gate, &mut passes)?;
    gate.open(&mut closer);
    print_slice(rt, "at an open one", &mut world, &gate, &mut passes)?;
    print_world(rt, &world)
}

// The devices act beside the harts: each looks at its port, and then waits for a driver.
fn print_devices<R: Threads + Wait + Print + AllocGlobal + Sync>(rt: &R) -> io::Result<()> {
    let (gate, mut passes) = FlagGate::new(rt.alloc(), 5)?;
    let Some(mut world) = two_drives(rt.alloc(), &FILLS_THE_RING) else {
        return println!(rt; "no world");
    };
    if world.hart_count() > 2 || world.devices().len() > 2 || passes.len() < 5 {
        return println!(rt; "too few passes");
    }
    let Ok(slice) = run_slice(
        rt,
        rt.alloc(),
        &mut world,
        &mut clock(),
        &mut FailingObjects,
        Devices::Act,
        &gate,
        &mut passes,
        1_000,
    ) else {
        return println!(rt; "no slice");
    };
    println!(rt;
        "devices: their stops => {:?} {:?}",
        stop_of(&slice, 3),
        stop_of(&slice, 4)
    )?;
    println!(rt; "devices: their events => {}", device_events(&slice))
}

// How many there are of devices.
fn device_events(slice: &Slice) -> usize {
    let mut count: usize = 0;
    for event in slice.events.iter() {
        if matches!(event.actor, ActorId::Device(_)) {
            count = count.wrapping_add(1);
        }
    }
    count
}

// The image's page alone is made at first. An actor has 256 blanks.
fn print_blanks<R: Threads + Wait + Print + AllocGlobal + Sync>(rt: &R) -> io::Result<()> {
    let (gate, mut passes) = FlagGate::new(rt.alloc(), 3)?;
    let Some(mut world) = two_harts(rt.alloc(), &WRITES_TO_PAGES) else {
        return println!(rt; "no world");
    };
    println!(rt; "blanks: pages to make => {}", world.pages().unmade())?;
    let stop = first_stop(rt, &mut world, &gate, &mut passes);
    println!(rt; "blanks: the stop of hart 0 => {stop:?}")?;
    let pages = world.pages();
    println!(rt;
        "blanks: pages to make and spare then => {} {}",
        pages.unmade(),
        pages.spare()
    )
}

// That of hart 0 in a slice.
fn first_stop<R: Threads + Wait + AllocGlobal + Sync>(
    rt: &R,
    world: &mut World,
    gate: &FlagGate,
    passes: &mut Vec<Pass>,
) -> Option<Stop>
    requires { All (λ pass. pass.0 ≡ gate.now) passes.old.items }
{
    let slice = slice_of(rt, world, gate, passes)?;
    stop_of(&slice, 1)
}

fn print_slice<R: Threads + Wait + Print + AllocGlobal + Sync>(
    rt: &R,
    place: &str,
    world: &mut World,
    gate: &FlagGate,
    passes: &mut Vec<Pass>,
) -> io::Result<()>
    requires { All (λ pass. pass.0 ≡ gate.now) passes.old.items }
    ensures { All (λ pass. pass.0 ≡ gate.now) passes.new.items }
{
    match slice_of(rt, world, gate, passes) {
        Some(slice) => print_stops(rt, place, &slice)?,
        None => println!(rt; "stops: no slice {place}")?,
    }
    print_ports(rt, place, world)
}

// Of 20,000 steps each, if there are enough passes.
fn slice_of<R: Threads + Wait + AllocGlobal + Sync>(
    rt: &R,
    world: &mut World,
    gate: &FlagGate,
    passes: &mut Vec<Pass>,
) -> Option<Slice>
    requires { All (λ pass. pass.0 ≡ gate.now) passes.old.items }
    ensures { All (λ pass. pass.0 ≡ gate.now) passes.new.items }
{
    if world.hart_count() > 32 || passes.len() <= world.hart_count() {
        return None;
    }
    match run_slice(
        rt,
        rt.alloc(),
        world,
        &mut clock(),
        &mut FailingObjects,
        Devices::Rest,
        gate,
        passes,
        20_000,
    ) {
        Ok(slice) => Some(slice),
        Err(_) => None,
    }
}

fn print_stops<R: Print>(rt: &R, place: &str, slice: &Slice) -> io::Result<()> {
    let made = !slice.events.is_empty();
    println!(rt; "stops {place}: a step is made => {made}")?;
    println!(rt; "stops {place}: of hart 0 => {:?}", stop_of(slice, 1))?;
    println!(rt; "stops {place}: of hart 1 => {:?}", stop_of(slice, 2))
}

// The timer's is the first.
fn stop_of(slice: &Slice, number: usize) -> Option<Stop> {
    Some(slice.stops.get(number)?.stop)
}

fn print_ports<R: Print>(rt: &R, place: &str, world: &World) -> io::Result<()> {
    println!(rt;
        "home {place}: sectors of port 0 => {:?}",
        sectors_of(world, 0)
    )?;
    println!(rt;
        "home {place}: sectors of port 1 => {:?}",
        sectors_of(world, 1)
    )
}

fn print_world<R: Print>(rt: &R, world: &World) -> io::Result<()> {
    println!(rt; "home: bytes in the ring => {}", world.console().len())?;
    println!(rt; "home: page 0 is marked => {}", is_marked(world))?;
    println!(rt; "home: the port of device 1 => {:?}", port_of(world, 1))
}

fn port_of(world: &World, number: usize) -> Option<u8> {
    Some(world.devices().get(number)?.port())
}

fn is_marked(world: &World) -> bool {
    let pages = world.pages();
    pages.len() > 0 && pages.is_marked(0)
}

// The lowest byte of its capacity.
fn sectors_of(world: &World, number: usize) -> Option<u8> {
    Some(world.ports().get(number)?.state().config[0])
}
