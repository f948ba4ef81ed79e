// One slice over the parts of a world, from the first step to the events in order.
ghost use Rattle.std.specs.Prelude.{◌≡◌, ◌+◌, ◌≤◌, ◌^◌, ℕ, [], length, All, IfErr, IfOk};
ghost use Rattle.guest_pages.specs.Flat.{ArePages};
ghost use Rattle.vm_world.specs.Worlds.{WorldValue};
ghost use Rattle.slice_runner.specs.Opened.{AreBackParts, IsOpened, world_of};
ghost use Rattle.slice_runner.specs.Blanks.{pool_of};
ghost use Rattle.slice_runner.specs.Room.{ForCrew, ForPlaces, HasRoom, counts_of};
ghost use Rattle.slice_runner.specs.Slices.{IsSlice, acting_of};
ghost use Rattle.slice_runner.specs.Values.{layout_in};

use crate::devices::{Devices, rejoin};
use crate::objects::DeviceObjects;
use crate::places::Places;
use crate::room::{CrewRoom, HomeRoom, PlaceRoom, PostRoom, Room};
use crate::running::run_all;
use crate::staffing::{Actors, Hired, gather, post};
use crate::stop::Stopped;
use guest_devices::Device;
use guest_pages::{Blank, Slot, mark_made};
use hart_rv64::Hart;
use machine_places::{MachinePlace, place_all, take_all};
use mmio_port::Port;
use pause_gate::Gate;
use stamp_merge::{Layout, merge};
use std::alloc::Global;
use std::mem::replace;
use std::sync::Wait;
use std::thread::Threads;
use timer_trace::Timer;
use turn_table::{TurnSeat, Turns};
use vm_host::Clock;
use vm_types::Entry;
use vm_world::WorldParts;

/// What a slice leaves: the parts of the world, the events in order, each actor's stop, and the blanks that it has still.
#[derive(Drop)]
pub struct Shared {
    pub parts: WorldParts,
    pub events: Vec<Entry>,
    pub stops: Vec<Stopped>,
    pub pools: Vec<Vec<Blank>>,
}

/// The parts of a world whose places are in a table, with the seat that has all parts of the right to act on them, and
/// empty lists for its pages and its ports.
#[derive(Drop)]
pub struct Opened {
    pub places: Places,
    pub seat: TurnSeat<MachinePlace>,
    pub pages: Vec<Slot>,
    pub ports: Vec<Port>,
    pub timer: Timer,
    pub harts: Vec<Hart>,
    pub devices: Vec<Device>,
}

// How many pages and ports there are, and how many parts of the right to act on them: one for each actor, and one more.
fn size_of(parts: &WorldParts, acting: usize) -> (Layout, u32)
    requires few { (length parts.now.pages.items ≤ 2 ^ 28) × (length parts.now.ports.items ≤ 16) × (length parts.now.harts.items ≤ 32) }
    requires acting { acting ≤ 16 }
    ensures layout { result.0 ≡ layout_in (world_of parts.now) }
    ensures parts { result.1 ≡ length parts.now.harts.items + (acting + 2) }
{
    let layout = Layout {
        pages: parts.pages.len() as u32,
        ports: parts.ports.len() as u8,
    };
    (layout, parts.harts.len() as u32 + (acting as u32 + 2))
}

// A world's places go into a table, in room that was made before. Without memory for the table its parts come back.
fn open(
    alloc: Global,
    parts: WorldParts,
    room: PlaceRoom,
    acting: usize,
) -> Result<Opened, WorldParts>
    requires few { (length parts.pages.items ≤ 2 ^ 28) × (length parts.ports.items ≤ 16) × (length parts.harts.items ≤ 32) }
    requires acting { acting ≤ 16 }
    requires room { ForPlaces (length parts.pages.items) (length parts.ports.items) room }
    ensures opened { IfOk result (λ opened. IsOpened (world_of parts) acting opened) }
    ensures back { IfErr result (λ back. AreBackParts parts back) }
{
    let PlaceRoom {
        places: mut list,
        mut made,
        mut pages,
        mut ports,
    } = room;
    let (layout, actors) = size_of(&parts, acting);
    mark_made(&parts.pages, &mut made);
    place_all(parts.pages, parts.ports, parts.board, &mut list);
    match Turns::new(alloc, list, actors) {
        Ok((turns, seat)) => Ok(Opened {
            places: Places {
                turns,
                layout,
                made,
            },
            seat,
            pages,
            ports,
            timer: parts.timer,
            harts: parts.harts,
            devices: parts.devices,
        }),
        Err(list) => {
            let board = take_all(list, &mut pages, &mut ports);
            Err(WorldParts {
                pages,
                board,
                ports,
                timer: parts.timer,
                harts: parts.harts,
                devices: parts.devices,
            })
        }
    }
}

impl Opened {
    // All actors at work until each of them stops, and everything home again. It takes no memory.
    fn run<
        Q: Send + Drop,
        C: Clock,
        O: DeviceObjects,
        G: Gate<Pass = Q> + Sync,
        R: Threads + Wait + Sync,
    >(
        self,
        rt: &R,
        gate: &G,
        clock: &mut C,
        objects: &mut O,
        how: Devices,
        passes: &mut Vec<Q>,
        room: CrewRoom<Q>,
        steps: u32,
    ) -> Shared
        requires opened { (w : WorldValue) × IsOpened w (acting_of how (length self.devices.items)) self × ArePages 0 w.pages }
        requires few { (length self.harts.items ≤ 32) × (acting_of how (length self.devices.items) ≤ 16) }
        requires passes { length self.harts.items + (acting_of how (length self.devices.items) + 1) ≤ length passes.old.items }
        requires serve { All (G.serves gate.now) passes.old.items }
        requires room { (blanks : ℕ) × ForCrew (counts_of (length self.harts.items) (acting_of how (length self.devices.items))
            (length passes.old.items)) steps blanks room }
        ensures slice { (w : WorldValue) → IsOpened w (acting_of how (length self.devices.items)) self → ArePages 0 w.pages →
            All (λ pool. length pool.items ≡ pool_of steps w.pages) room.work.pools.items →
            IsSlice G.tally O.Answers steps (acting_of how (length w.devices)) (C.known clock.old) (C.known clock.new)
            (O.known objects.old) (O.known objects.new)
            w result.events.items (world_of result.parts) result.stops.items passes.old.items passes.new.items }
        ensures serve { All (G.serves gate.now) passes.new.items }
        ensures same { length passes.new.items ≡ length passes.old.items }
    {
        let Opened {
            places,
            mut seat,
            mut pages,
            mut ports,
            timer,
            harts,
            devices,
        } = self;
        let CrewRoom {
            work,
            posts,
            passes: none,
            mut home,
            resting,
            mut events,
        } = room;
        let PostRoom {
            workers,
            devices: posted,
            tracks: back,
        } = posts;
        let given = replace(passes, none);
        let count = harts.len();
        let actors = count + (how.acting(devices.len()) + 1);
        let parted = how.part(devices, resting);
        let (acting, resting) = parted;
        let hired = places.hire(&mut seat, count, actors, given, work);
        let Hired { tracks, left } = hired;
        let all = Actors {
            timer,
            harts,
            devices: acting,
        };
        let mut crew = post(all, tracks, workers, posted);
        run_all(
            rt,
            gate,
            &places,
            steps,
            clock,
            objects,
            &mut crew.timer,
            &mut crew.workers,
            &mut crew.devices,
        );
        let gathered = gather(crew, back, &mut home);
        let (timer, tracks) = gathered;
        places.dismiss(&mut seat, tracks, left, passes, &mut home);
        let HomeRoom {
            harts,
            devices,
            journals,
            stops,
            pools,
        } = home;
        let Places {
            turns,
            layout: _,
            made: _,
        } = places;
        let board = take_all(turns.close(seat), &mut pages, &mut ports);
        merge(journals.as_slice(), &mut events);
        let devices = rejoin(how, devices, resting);
        let parts = WorldParts {
            pages,
            board,
            ports,
            timer,
            harts,
            devices,
        };
        Shared {
            parts,
            events,
            stops,
            pools,
        }
    }
}

/// One slice. Without memory for it the parts come back as they were, and nothing was done.
pub fn share<
    Q: Send + Drop,
    C: Clock,
    O: DeviceObjects,
    G: Gate<Pass = Q> + Sync,
    R: Threads + Wait + Sync,
>(
    rt: &R,
    alloc: Global,
    gate: &G,
    clock: &mut C,
    objects: &mut O,
    how: Devices,
    passes: &mut Vec<Q>,
    parts: WorldParts,
    room: Room<Q>,
    steps: u32,
) -> Result<Shared, WorldParts>
    requires pages { ArePages 0 parts.pages.items }
    requires few { length parts.pages.items ≤ 2 ^ 28 }
    requires few_ports { length parts.ports.items ≤ 16 }
    requires actors { (length parts.harts.items ≤ 32) × (acting_of how (length parts.devices.items) ≤ 16) }
    requires passes { length parts.harts.items + (acting_of how (length parts.devices.items) + 1) ≤ length passes.old.items }
    requires serve { All (G.serves gate.now) passes.old.items }
    requires room { HasRoom (length parts.pages.items) (length parts.ports.items)
        (counts_of (length parts.harts.items) (acting_of how (length parts.devices.items)) (length passes.old.items))
        steps (pool_of steps parts.pages.items) room }
    ensures shared { IfOk result (λ shared. IsSlice G.tally O.Answers steps (acting_of how (length parts.devices.items))
        (C.known clock.old) (C.known clock.new) (O.known objects.old) (O.known objects.new)
        (world_of parts) shared.events.items (world_of shared.parts)
        shared.stops.items passes.old.items passes.new.items) }
    ensures back { IfErr result (λ back. AreBackParts parts back × (C.known clock.new ≡ C.known clock.old)
        × (O.known objects.new ≡ O.known objects.old) × (passes.new.items ≡ passes.old.items)) }
    ensures serve { All (G.serves gate.now) passes.new.items }
    ensures same { length passes.new.items ≡ length passes.old.items }
{
    let Room { places, crew } = room;
    let acting = how.acting(parts.devices.len());
    match open(alloc, parts, places, acting) {
        Ok(opened) => Ok(opened.run(rt, gate, clock, objects, how, passes, crew, steps)),
        Err(back) => Err(back),
    }
}
