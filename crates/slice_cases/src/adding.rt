// Two harts that add to one word, in a hundred slices of 64 steps, each replayed step by step on another world.
ghost use Rattle.std.specs.Prelude.{◌≡◌, All};

use crate::failing::FailingObjects;
use crate::worlds::{clock, replays, two_harts, word_at};
use pause_gate::{FlagGate, Pass};
use slice_runner::{Devices, Slice, run_slice};
use std::io;
use std::sync::Wait;
use std::thread::Threads;
use vm_world::World;

// Starts the other hart; then each adds 1 to the word at 0x80210018 1,000 times, by amoadd.
pub const ADDS_TO_ONE_WORD: [u8; 52] = [
    0xb7, 0x58, 0x48, 0x00, 0x93, 0x88, 0xd8, 0x34, 0x13, 0x05, 0x10, 0x00, 0x97, 0x05, 0x00, 0x00,
    0x93, 0x85, 0xc5, 0x00, 0x73, 0x00, 0x00, 0x00, 0x97, 0x02, 0x01, 0x00, 0x93, 0x03, 0x80, 0x3e,
    0x13, 0x03, 0x10, 0x00, 0x2f, 0xb0, 0x62, 0x00, 0x93, 0x83, 0xf3, 0xff, 0xe3, 0x9c, 0x03, 0xfe,
    0x6f, 0x00, 0x00, 0x00,
];

/// How many slices came, of them those with three stops, and those whose events replay.
#[derive(Clone, Copy, Drop)]
struct Counts {
    slices: u32,
    stopped: u32,
    replayed: u32,
}

pub fn print<R: Threads + Wait + Print + AllocGlobal + Sync>(rt: &R) -> io::Result<()> {
    let (gate, mut passes) = FlagGate::new(rt.alloc(), 3)?;
    let (Some(mut world), Some(mut other)) = (
        two_harts(rt.alloc(), &ADDS_TO_ONE_WORD),
        two_harts(rt.alloc(), &ADDS_TO_ONE_WORD),
    ) else {
        return println!(rt; "no two worlds");
    };
    // The word's page.
    other.reserve(rt.alloc(), 1)?;
    let counts = run_all(rt, &mut world, &mut other, &gate, &mut passes);
    print_counts(rt, counts)?;
    print_words(rt, &world, &other)
}

fn run_all<R: Threads + Wait + AllocGlobal + Sync>(
    rt: &R,
    world: &mut World,
    other: &mut World,
    gate: &FlagGate,
    passes: &mut Vec<Pass>,
) -> Counts
    requires { All (λ pass. pass.0 ≡ gate.now) passes.old.items }
{
    let mut clock = clock();
    let mut counts = Counts {
        slices: 0,
        stopped: 0,
        replayed: 0,
    };
    for _slice in 0..100 {
        if world.hart_count() > 32 || passes.len() <= world.hart_count() {
            return counts;
        }
        if let Ok(slice) = run_slice(
            rt,
            rt.alloc(),
            world,
            &mut clock,
            &mut FailingObjects,
            Devices::Rest,
            gate,
            passes,
            64,
        ) {
            count(&mut counts, other, &slice);
        }
    }
    counts
}

fn count(counts: &mut Counts, other: &mut World, slice: &Slice) {
    counts.slices = counts.slices.wrapping_add(1);
    if slice.stops.len() == 3 {
        counts.stopped = counts.stopped.wrapping_add(1);
    }
    if replays(other, slice.events.as_slice()) {
        counts.replayed = counts.replayed.wrapping_add(1);
    }
}

fn print_counts<R: Print>(rt: &R, counts: Counts) -> io::Result<()> {
    println!(rt; "adding: slices => {}", counts.slices)?;
    println!(rt; "adding: slices with three stops => {}", counts.stopped)?;
    println!(rt; "adding: slices that replay => {}", counts.replayed)
}

fn print_words<R: Print>(rt: &R, world: &World, other: &World) -> io::Result<()> {
    println!(rt; "adding: the word => {:?}", word_at(world, 0x8021_0018))?;
    println!(rt;
        "adding: the word of the replay => {:?}",
        word_at(other, 0x8021_0018)
    )
}
