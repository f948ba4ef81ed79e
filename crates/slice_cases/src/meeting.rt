// Two harts that are held inside pages of their own, and then a closed gate.
ghost use Rattle.std.specs.Prelude.{◌≡◌, All};

use crate::failing::FailingObjects;
use crate::worlds::{clock, two_harts};
use pause_gate::{FlagGate, HoldGate, Party, Pass};
use slice_runner::{Devices, Stop, run_slice};
use std::io;
use std::sync::Wait;
use std::thread::Threads;
use vm_types::{ActorId, PlaceId};
use vm_world::World;

// Starts the other hart, and then each goes its way: hart 0 writes to page 7, hart 1 fetches from page 512 alone.
const GO_THEIR_WAYS: [u8; 36] = [
    0xb7, 0x58, 0x48, 0x00, 0x93, 0x88, 0xd8, 0x34, 0x13, 0x05, 0x10, 0x00, 0x97, 0x05, 0x00, 0x00,
    0x93, 0x85, 0x45, 0x01, 0x73, 0x00, 0x00, 0x00, 0x97, 0x72, 0xe0, 0xff, 0x23, 0xa0, 0x52, 0x00,
    0x6f, 0x00, 0x00, 0x00,
];

/// The first step of hart 0 is held by the meeting, and then the gate is closed.
pub fn print<R: Threads + Wait + Print + AllocGlobal + Sync>(rt: &R) -> io::Result<()> {
    let Some(mut world) = two_harts(rt.alloc(), &GO_THEIR_WAYS) else {
        return println!(rt; "no world");
    };
    world.reserve(rt.alloc(), 9)?;
    let made = world.run(ActorId::Hart(0), 9).is_ok();
    println!(rt; "meeting: nine steps are made => {made}")?;
    print_meeting(rt, &mut world)
}

fn print_meeting<R: Threads + Wait + Print + AllocGlobal + Sync>(
    rt: &R,
    world: &mut World,
) -> io::Result<()> {
    let (flag, mut passes) = FlagGate::new(rt.alloc(), 3)?;
    let gate = HoldGate::new(flag, party(0, 7), party(1, 512), 100_000_000);
    let stop = stop_of_hart_0(rt, world, &gate, &mut passes);
    println!(rt; "meeting: of two harts => {:?}", gate.meeting())?;
    println!(rt; "meeting: the stop of hart 0 => {stop:?}")
}

pub fn party(hart: u8, page: u32) -> Party {
    Party::of(ActorId::Hart(hart), PlaceId::Page(page))
}

// After one slice, if there are enough passes.
fn stop_of_hart_0<R: Threads + Wait + AllocGlobal + Sync>(
    rt: &R,
    world: &mut World,
    gate: &HoldGate,
    passes: &mut Vec<Pass>,
) -> Option<Stop>
    requires { All (λ pass. pass.0 ≡ gate.now.flag) passes.old.items }
{
    if world.hart_count() > 32 || passes.len() <= world.hart_count() {
        return None;
    }
    match run_slice(
        rt,
        rt.alloc(),
        world,
        &mut clock(),
        &mut FailingObjects,
        Devices::Rest,
        gate,
        passes,
        64,
    ) {
        Ok(slice) => Some(slice.stops.get(1)?.stop),
        Err(_) => None,
    }
}
