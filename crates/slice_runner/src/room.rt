// Room for a slice, made before its first step.
ghost use Rattle.std.specs.Prelude.{◌≡◌, ◌+◌, ◌<◌, ◌≤◌, ◌*◌, ◌^◌, ℕ, [], length, vec_len, vec_capacity, All, IfOk};
ghost use Rattle.slice_runner.specs.Room.{HasRoom, ForCrew, ForHome, ForPlaces, ForPosts, ForWork, actors_in};

use crate::stop::Stopped;
use crate::worker::{DeviceWorker, HartWorker, Track};
use guest_devices::Device;
use guest_pages::{Blank, Slot};
use hart_rv64::Hart;
use machine_places::MachinePlace;
use mmio_port::Port;
use stamp_merge::{Journal, Layout};
use std::alloc::{AllocError, Global};
use turn_table::Held;
use vm_types::Entry;

/// Empty lists for places that go into a table, for marks of the pages that are made, and for pages and ports that come back.
#[derive(Drop)]
pub struct PlaceRoom {
    pub places: Vec<Held<MachinePlace>>,
    pub made: Vec<bool>,
    pub pages: Vec<Slot>,
    pub ports: Vec<Port>,
}

/// How many harts and devices act in a slice, and how many passes there are.
#[derive(Clone, Copy, Drop)]
pub struct Counts {
    pub harts: usize,
    pub devices: usize,
    pub passes: usize,
}

/// Empty lists for what actors do and for passes that are left, and an empty journal and a pool of blanks for each actor.
#[derive(Drop)]
pub struct WorkRoom<Q> {
    pub tracks: Vec<Track<Q>>,
    pub left: Vec<Q>,
    pub blank: Vec<Vec<Entry>>,
    pub pools: Vec<Vec<Blank>>,
}

/// Empty lists for harts and devices that go to work, and for what all actors did.
#[derive(Drop)]
pub struct PostRoom<Q> {
    pub workers: Vec<HartWorker<Q>>,
    pub devices: Vec<DeviceWorker<Q>>,
    pub tracks: Vec<Track<Q>>,
}

/// Empty lists for harts and devices that come back with the journals, the stops and the blanks of all actors.
#[derive(Drop)]
pub struct HomeRoom {
    pub harts: Vec<Hart>,
    pub devices: Vec<Device>,
    pub journals: Vec<Journal>,
    pub stops: Vec<Stopped>,
    pub pools: Vec<Vec<Blank>>,
}

/// Room for what the actors of a slice move and write down: as they go to work and come home, for devices that rest, and for all events.
#[derive(Drop)]
pub struct CrewRoom<Q> {
    pub work: WorkRoom<Q>,
    pub posts: PostRoom<Q>,
    pub passes: Vec<Q>,
    pub home: HomeRoom,
    pub resting: Vec<Device>,
    pub events: Vec<Entry>,
}

/// Room for all that a slice moves and writes down.
#[derive(Drop)]
pub struct Room<Q> {
    pub places: PlaceRoom,
    pub crew: CrewRoom<Q>,
}

// So many empty journals, each with room for so many entries.
fn blank_journals(alloc: Global, count: usize, n: usize) -> Result<Vec<Vec<Entry>>, AllocError>
    ensures count { IfOk result (λ blank. length blank.items ≡ count) }
    ensures blank { IfOk result (λ blank. All (λ journal. journal.items ≡ []) blank.items) }
    ensures entries { IfOk result (λ blank. All (λ journal. n ≤ vec_capacity journal) blank.items) }
{
    let mut blank = Vec::with_capacity(alloc, count)?;
    for _journal in 0..count {
        let journal = Vec::with_capacity(alloc, n)?;
        blank.push_reserved(journal);
    }
    Ok(blank)
}

impl PlaceRoom {
    fn new(alloc: Global, pages: usize, ports: usize) -> Result<PlaceRoom, AllocError>
        requires { (pages ≤ 2 ^ 28) × (ports ≤ 255) }
        ensures { IfOk result (λ room. ForPlaces pages ports room) }
    {
        let places = Vec::with_capacity(alloc, pages + (ports + 1))?;
        let made = Vec::with_capacity(alloc, pages)?;
        let pages_home = Vec::with_capacity(alloc, pages)?;
        let ports_home = Vec::with_capacity(alloc, ports)?;
        Ok(PlaceRoom {
            places,
            made,
            pages: pages_home,
            ports: ports_home,
        })
    }
}

impl Counts {
    /// The timer, the harts and the devices.
    pub fn actors(self) -> usize
        requires { (self.harts ≤ 32) × (self.devices ≤ 16) }
        ensures { result ≡ actors_in self }
    {
        self.harts + (self.devices + 1)
    }
}

impl<Q: Drop> WorkRoom<Q> {
    fn new(
        alloc: Global,
        counts: Counts,
        n: usize,
        pools: Vec<Vec<Blank>>,
    ) -> Result<WorkRoom<Q>, AllocError>
        requires few { (counts.harts ≤ 32) × (counts.devices ≤ 16) }
        requires pools { length pools.items ≡ actors_in counts }
        ensures room { IfOk result (λ room. (blanks : ℕ) → All (λ pool. length pool.items ≡ blanks) pools.items →
            ForWork (actors_in counts) counts.passes blanks room) }
        ensures entries { IfOk result (λ room. All (λ journal. n ≤ vec_capacity journal) room.blank.items) }
    {
        let tracks = Vec::with_capacity(alloc, counts.actors())?;
        let left = Vec::with_capacity(alloc, counts.passes)?;
        let blank = blank_journals(alloc, counts.actors(), n)?;
        Ok(WorkRoom {
            tracks,
            left,
            blank,
            pools,
        })
    }
}

impl<Q: Drop> PostRoom<Q> {
    fn new(alloc: Global, counts: Counts) -> Result<PostRoom<Q>, AllocError>
        requires few { (counts.harts ≤ 32) × (counts.devices ≤ 16) }
        ensures { IfOk result (λ room. ForPosts counts room) }
    {
        let workers = Vec::with_capacity(alloc, counts.harts)?;
        let devices = Vec::with_capacity(alloc, counts.devices)?;
        let tracks = Vec::with_capacity(alloc, counts.actors())?;
        Ok(PostRoom {
            workers,
            devices,
            tracks,
        })
    }
}

impl HomeRoom {
    fn new(alloc: Global, counts: Counts) -> Result<HomeRoom, AllocError>
        requires few { (counts.harts ≤ 32) × (counts.devices ≤ 16) }
        ensures { IfOk result (λ room. ForHome counts room) }
    {
        let harts = Vec::with_capacity(alloc, counts.harts)?;
        let devices = Vec::with_capacity(alloc, counts.devices)?;
        let journals = Vec::with_capacity(alloc, counts.actors())?;
        let stops = Vec::with_capacity(alloc, counts.actors())?;
        let pools = Vec::with_capacity(alloc, counts.actors())?;
        Ok(HomeRoom {
            harts,
            devices,
            journals,
            stops,
            pools,
        })
    }
}

impl<Q: Drop> CrewRoom<Q> {
    fn new(
        alloc: Global,
        counts: Counts,
        n: u32,
        pools: Vec<Vec<Blank>>,
    ) -> Result<CrewRoom<Q>, AllocError>
        requires few { (counts.harts ≤ 32) × (counts.devices ≤ 16) }
        requires pools { length pools.items ≡ actors_in counts }
        ensures { IfOk result (λ room. (blanks : ℕ) → All (λ pool. length pool.items ≡ blanks) pools.items →
            ForCrew counts n blanks room) }
    {
        let work = WorkRoom::new(alloc, counts, n as usize, pools)?;
        let posts = PostRoom::new(alloc, counts)?;
        let passes = Vec::with_capacity(alloc, counts.passes)?;
        let home = HomeRoom::new(alloc, counts)?;
        let events = Vec::with_capacity(alloc, counts.actors() * n as usize)?;
        Ok(CrewRoom {
            work,
            posts,
            passes,
            home,
            resting: Vec::new(alloc),
            events,
        })
    }
}

impl<Q: Drop> Room<Q> {
    /// Room for so many pages, ports, harts, devices and passes, and for so many steps of each actor, with these pools for the actors.
    pub fn new(
        alloc: Global,
        layout: Layout,
        counts: Counts,
        n: u32,
        pools: Vec<Vec<Blank>>,
    ) -> Result<Room<Q>, AllocError>
        requires pages { layout.pages ≤ 2 ^ 28 }
        requires ports { layout.ports ≤ 255 }
        requires few { (counts.harts ≤ 32) × (counts.devices ≤ 16) }
        requires pools { length pools.items ≡ actors_in counts }
        ensures { IfOk result (λ room. (blanks : ℕ) → All (λ pool. length pool.items ≡ blanks) pools.items →
            HasRoom layout.pages layout.ports counts n blanks room) }
    {
        let places = PlaceRoom::new(alloc, layout.pages as usize, usize::from(layout.ports))?;
        let crew = CrewRoom::new(alloc, counts, n, pools)?;
        Ok(Room { places, crew })
    }
}
