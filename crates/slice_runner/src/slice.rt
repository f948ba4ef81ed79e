// A slice of a world.
ghost use Rattle.std.specs.Prelude.{◌≡◌, ◌+◌, ◌≤◌, ◌^◌, length, All, IfOk, OnErr};
ghost use Rattle.slice_runner.specs.Blanks.{pool_of};
ghost use Rattle.slice_runner.specs.Values.{layout_in};
ghost use Rattle.slice_runner.specs.Slices.{AreStamps, ClockWasAsked, DevicesAnswered, IsSerial, IsThere, MarksFollow, acting};
ghost use Rattle.vm_world.specs.Worlds.{IsSameButSpare};
ghost use Rattle.slice_runner.specs.Stops.{AreStopped};

use crate::devices::Devices;
use crate::objects::DeviceObjects;
use crate::room::{Counts, Room};
use crate::sharing::{Shared, share};
use crate::stop::Stopped;
use guest_pages::Blank;
use line_board::Board;
use pause_gate::Gate;
use stamp_merge::Layout;
use std::alloc::{AllocError, Global};
use std::sync::Wait;
use std::thread::Threads;
use vm_host::Clock;
use vm_types::Entry;
use vm_world::World;

/// An actor has no more blanks than these.
const MOST_BLANKS: usize = 256;

/// What a slice hands out: the events of all actors in one order, and the stop of each, the timer's first, then the
/// harts' by their numbers, and then the devices' by theirs.
#[derive(Drop)]
pub struct Slice {
    pub events: Vec<Entry>,
    pub stops: Vec<Stopped>,
}

/// So many steps at most of each hart, all of them side by side, each in a thread of its own. In this thread, beside them, the timer
/// makes so many steps, but no more than a round, so that guest time goes on from slice to slice; and then, if devices act, each of
/// them makes so many at most, one device after another. Before each step the actor asks the
/// gate with its pass, the one at its place, where the timer comes first, then the harts by their numbers, and then the devices by
/// theirs; an actor stops as `Stop` says. At most 32 harts, and at most 16 devices that act.
///
/// The events lead from the world before to the world after, each as the flat machine's step, with the reply that it got, whatever races
/// with what; each is the timer's, a hart's, or that of a device that acts. Their stamps begin anew with the slice. The timer's
/// `Clock` answers are the clock's next ones, and what a device asks of the host's objects is answered by `objects`, in order. Nothing is
/// said of waiting, nor of which actor gets on.
///
/// A page that isn't made is made where an act leaves something in it, from the actor's blanks: as many as it may make steps, or as
/// there are pages that aren't made, and 256 at most. What is left of them is spare again.
///
/// The only error is want of memory, for the lists of events and journals, for blanks or for what moves places. It comes before the first
/// step, and then the clock, the objects and the passes are as they were, and the world but for how many pages are spare.
pub fn run_slice<
    Q: Send + Drop,
    C: Clock,
    O: DeviceObjects,
    G: Gate<Pass = Q> + Sync,
    R: Threads + Wait + Sync,
>(
    rt: &R,
    alloc: Global,
    world: &mut World,
    clock: &mut C,
    objects: &mut O,
    how: Devices,
    gate: &G,
    passes: &mut Vec<Q>,
    steps: u32,
) -> Result<Slice, AllocError>
    requires actors { (length world.old.harts ≤ 32) × (acting how world.old ≤ 16) }
    requires passes { length world.old.harts + (acting how world.old + 1) ≤ length passes.old.items }
    requires serve { All (G.serves gate.now) passes.old.items }
    ensures serial { IfOk result (λ slice. IsSerial world.old slice.events.items world.new) }
    ensures actors { IfOk result (λ slice. All (λ e. IsThere (length world.old.harts) (acting how world.old) e.actor) slice.events.items) }
    ensures stamps { IfOk result (λ slice. AreStamps slice.events.items) }
    ensures marks { IfOk result (λ slice. MarksFollow world.old.pages slice.events.items world.new.pages) }
    ensures stops { IfOk result (λ slice.
        AreStopped G.tally steps (acting how world.old) world.old slice.events.items world.new slice.stops.items passes.old.items passes.new.items) }
    ensures clock { IfOk result (λ slice.
        ClockWasAsked (C.known clock.old) slice.events.items (C.known clock.new)) }
    ensures answered { IfOk result (λ slice.
        DevicesAnswered O.Answers slice.events.items 0 (acting how world.old) (O.known objects.old) (O.known objects.new)) }
    ensures failed { OnErr result (IsSameButSpare world.old world.new
        × (C.known clock.new ≡ C.known clock.old) × (O.known objects.new ≡ O.known objects.old)
        × (passes.new.items ≡ passes.old.items)) }
    ensures serve { All (G.serves gate.now) passes.new.items }
    ensures same { length passes.new.items ≡ length passes.old.items }
{
    let layout = layout_of(world);
    let counts = Counts {
        harts: world.hart_count(),
        devices: how.acting(world.devices().len()),
        passes: passes.len(),
    };
    let blanks = blanks_for(world, steps);
    let pools = pools_of(alloc, world, counts.actors(), blanks)?;
    let room = Room::<Q>::new(alloc, layout, counts, steps, pools)?;
    let board = Board::new(alloc, 0)?;
    let parts = world.take(alloc, board);
    match share(
        rt, alloc, gate, clock, objects, how, passes, parts, room, steps,
    ) {
        Ok(shared) => {
            let Shared {
                parts,
                events,
                stops,
                pools,
            } = shared;
            world.put_back(parts);
            give_back(world, pools);
            Ok(Slice { events, stops })
        }
        Err(parts) => {
            world.put_back(parts);
            Err(AllocError)
        }
    }
}

// How many pages and ports there are.
fn layout_of(world: &World) -> Layout
    ensures layout { result ≡ layout_in world.now }
    ensures few { (result.pages ≤ 2 ^ 28) × (result.ports ≤ 255) }
{
    Layout {
        pages: world.pages().len() as u32,
        ports: world.ports().len() as u8,
    }
}

// How many blanks an actor has at first.
fn blanks_for(world: &World, steps: u32) -> usize
    ensures blanks { result ≡ pool_of steps world.now.pages }
    ensures few { result ≤ 256 }
{
    (steps as usize)
        .min(world.pages().unmade())
        .min(MOST_BLANKS)
}

// A pool of so many blanks for each of so many actors, of the world's spare pages.
#[tactic(auto, using(crate::proofs::Pools::same_again, crate::proofs::Pools::spare_alone, crate::proofs::Pools::same_whole, crate::proofs::Pools::for_one, crate::proofs::Pools::for_others))]
fn pools_of(
    alloc: Global,
    world: &mut World,
    actors: usize,
    blanks: usize,
) -> Result<Vec<Vec<Blank>>, AllocError>
    requires few { (actors ≤ 49) × (blanks ≤ 256) }
    ensures same { IsSameButSpare world.old world.new }
    ensures count { IfOk result (λ pools. length pools.items ≡ actors) }
    ensures filled { IfOk result (λ pools. All (λ pool. length pool.items ≡ blanks) pools.items) }
{
    world.reserve_spare(alloc, actors * blanks)?;
    let mut pools = Vec::with_capacity(alloc, actors)?;
    for _actor in 0..actors {
        let mut pool = Vec::with_capacity(alloc, blanks)?;
        world.take_spare(blanks, &mut pool);
        pools.push_reserved(pool);
    }
    Ok(pools)
}

// What is left of the pools is spare again.
#[tactic(auto, using(crate::proofs::Pools::same_again))]
fn give_back(world: &mut World, pools: Vec<Vec<Blank>>)
    ensures { IsSameButSpare world.old world.new }
{
    let mut rest = pools.into_iter();
    while let Some(pool) = rest.next() {
        world.give_spare(pool);
    }
}
