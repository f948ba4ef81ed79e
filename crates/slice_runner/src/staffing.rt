// Actors go to work, and come back.
ghost use Rattle.std.specs.Prelude.{◌≡◌, ◌+◌, ◌≤◌, ◌<◌, ◌++◌, ◌∷◌, ℕ, [], length, vec_len, vec_capacity, All};
ghost use Rattle.stamp_merge.specs.Journals.{all_of};
ghost use Rattle.stamp_merge.specs.Merged.{journals_of};
ghost use Rattle.turn_table.specs.Views.{fewer};
ghost use Rattle.turn_table.specs.Steps.{IsReady};
ghost use Rattle.turn_work.specs.Work.{HasNoted};
ghost use Rattle.machine_places.specs.Laid.{index_among};
ghost use Rattle.slice_runner.specs.Room.{ForWork, GrowsByOne, IsHome};
ghost use Rattle.slice_runner.specs.Runs.{Begins};
ghost use Rattle.slice_runner.specs.Seats.{IsBare, IsSeated, IsSeatedIn};
ghost use Rattle.slice_runner.specs.Staff.{AreAtWork, AreBack, AreHired, AreSeated, devices_of, harts_of, journal_of, stop_of, tracks_of};
ghost use Rattle.slice_runner.specs.Stops.{actor_of};

use crate::places::Places;
use crate::room::{HomeRoom, WorkRoom};
use crate::stop::{Stop, Stopped};
use crate::worker::{DeviceWorker, HartWorker, TimerWorker, Track};
use guest_devices::Device;
use guest_pages::Blank;
use hart_rv64::Hart;
use machine_places::MachinePlace;
use timer_trace::Timer;
use turn_table::TurnSeat;
use turn_work::Worker;
use vm_types::{ActorId, Entry};

/// The actors of a slice: the timer, the harts, and the devices that act.
#[derive(Drop)]
pub struct Actors {
    pub timer: Timer,
    pub harts: Vec<Hart>,
    pub devices: Vec<Device>,
}

/// Actors at work.
#[derive(Drop)]
pub struct AtWork<Q> {
    pub timer: TimerWorker<Q>,
    pub workers: Vec<HartWorker<Q>>,
    pub devices: Vec<DeviceWorker<Q>>,
}

/// What actors do, each with the pass at its place, and the passes that none of them has.
#[derive(Drop)]
pub struct Hired<Q> {
    pub tracks: Vec<Track<Q>>,
    pub left: Vec<Q>,
}

// The actor at this place, where there are so many harts.
fn actor_at(number: usize, harts: usize) -> ActorId
    requires { (number ≤ 64) × (harts ≤ 32) }
    ensures { result ≡ actor_of harts number }
{
    if number == 0 {
        return ActorId::Timer;
    }
    let number = number - 1;
    if number < harts {
        ActorId::Hart(number as u8)
    } else {
        ActorId::Device((number - harts) as u8)
    }
}

// The last of these, of which there is one.
fn take_last<T>(items: &mut Vec<T>) -> T
    requires { 0 < length items.old.items }
    ensures { items.old.items ≡ items.new.items ++ result ∷ [] }
{
    let Some(item) = items.pop() else {
        unreachable!()
    };
    item
}

impl Places {
    // An actor that did nothing yet, with one part of those that the seat has.
    fn track_of<Q>(
        &self,
        seat: &mut TurnSeat<MachinePlace>,
        id: ActorId,
        pass: Q,
        journal: Vec<Entry>,
        pool: Vec<Blank>,
    ) -> Track<Q>
        requires seat { IsBare self.now seat.old }
        requires parts { 1 < seat.old.me.0.parts }
        requires journal { journal.items ≡ [] }
        ensures seat { IsBare self.now seat.new }
        ensures fewer { seat.new.me.0 ≡ fewer seat.old.me.0 }
        ensures seated { IsSeatedIn self.now seat.old.me.0.round result.work }
        ensures id { result.work.actor ≡ id }
        ensures pass { result.pass ≡ pass }
        ensures begins { (n : ℕ) → n ≤ vec_capacity journal → Begins n (length pool.items) result }
    {
        Track {
            pass,
            full: false,
            stop: Stop::Steps,
            work: Worker::new(&self.turns, seat, id, journal),
            pool,
        }
    }

    /// So many actors go to work, each with one part of the right to act, with the pass at its place, a journal and a pool; the other
    /// passes are left. It takes no memory.
    pub fn hire<Q: Drop>(
        &self,
        seat: &mut TurnSeat<MachinePlace>,
        harts: usize,
        actors: usize,
        passes: Vec<Q>,
        room: WorkRoom<Q>,
    ) -> Hired<Q>
        requires seat { IsBare self.now seat.old }
        requires parts { actors < seat.old.me.0.parts }
        requires few { (harts ≤ 32) × (actors ≤ 64) }
        requires passes { actors ≤ length passes.items }
        requires room { (blanks : ℕ) × ForWork actors (length passes.items) blanks room }
        ensures seat { IsBare self.now seat.new }
        ensures parts { seat.new.me.0.parts + actors ≡ seat.old.me.0.parts }
        ensures round { seat.new.me.0.round ≡ seat.old.me.0.round }
        ensures seated { AreSeated self.now seat.old.me.0.round result.tracks.items }
        ensures many { length result.tracks.items ≡ actors }
        ensures hired { (n blanks : ℕ) → All (λ journal. n ≤ vec_capacity journal) room.blank.items →
            All (λ pool. length pool.items ≡ blanks) room.pools.items →
            AreHired n blanks harts passes.items result.tracks.items result.left.items }
    {
        let WorkRoom {
            mut tracks,
            mut left,
            blank: mut journals,
            mut pools,
        } = room;
        let mut rest = passes.into_iter();
        for number in 0..actors {
            let Some(pass) = rest.next() else {
                unreachable!()
            };
            let journal = take_last(&mut journals);
            let pool = take_last(&mut pools);
            let track = self.track_of(seat, actor_at(number, harts), pass, journal, pool);
            tracks.push_reserved(track);
        }
        while let Some(pass) = rest.next() {
            left.push_reserved(pass);
        }
        Hired { tracks, left }
    }

    // An actor leaves: its part of the right to act and what it noted go to the seat.
    fn stand_down<Q>(
        &self,
        seat: &mut TurnSeat<MachinePlace>,
        track: Track<Q>,
        passes: &mut Vec<Q>,
        home: &mut HomeRoom,
    )
        requires seat { IsReady self.now.turns.table.shared.table_id self.now.turns.round seat.old }
        requires seated { IsSeated self.now track.work }
        requires noted { HasNoted track.work.seat.me.0.round (index_among self.now.layout) seat.old.me.0 (all_of (journals_of home.old.journals.items)) }
        requires passes { vec_len passes.old < vec_capacity passes.old }
        requires journals { vec_len home.old.journals < vec_capacity home.old.journals }
        requires stops { vec_len home.old.stops < vec_capacity home.old.stops }
        requires pools { vec_len home.old.pools < vec_capacity home.old.pools }
        ensures seat { IsReady self.now.turns.table.shared.table_id self.now.turns.round seat.new }
        ensures parts { seat.new.me.0.parts ≡ seat.old.me.0.parts + 1 }
        ensures noted { HasNoted track.work.seat.me.0.round (index_among self.now.layout) seat.new.me.0 (all_of (journals_of home.new.journals.items)) }
        ensures passes { passes.new.items ≡ passes.old.items ++ track.pass ∷ [] }
        ensures journals { home.new.journals.items ≡ home.old.journals.items ++ journal_of track ∷ [] }
        ensures stops { home.new.stops.items ≡ home.old.stops.items ++ stop_of track ∷ [] }
        ensures others { (home.new.harts ≡ home.old.harts) × (home.new.devices ≡ home.old.devices) }
        ensures room { vec_capacity passes.new ≡ vec_capacity passes.old }
        ensures more { GrowsByOne home.old home.new }
    {
        let Track {
            pass,
            full: _,
            stop,
            work,
            pool,
        } = track;
        let actor = work.actor;
        let journal = work.leave(&self.turns, seat);
        passes.push_reserved(pass);
        home.journals.push_reserved(journal);
        home.stops.push_reserved(Stopped { actor, stop });
        home.pools.push_reserved(pool);
    }

    /// They leave, with their passes, their journals, their stops and their blanks, into room that was made before, and the seat gets
    /// their parts of the right to act and what they noted. It takes no memory.
    pub fn dismiss<Q: Drop>(
        &self,
        seat: &mut TurnSeat<MachinePlace>,
        tracks: Vec<Track<Q>>,
        left: Vec<Q>,
        passes: &mut Vec<Q>,
        home: &mut HomeRoom,
    )
        requires seat { IsBare self.now seat.old }
        requires seated { AreSeated self.now seat.old.me.0.round tracks.items }
        requires empty { passes.old.items ≡ [] }
        requires passes { length tracks.items + length left.items ≤ vec_capacity passes.old }
        requires home { IsHome (length tracks.items) home.old }
        ensures back { AreBack tracks.items left.items passes.new.items home.new.journals.items home.new.stops.items }
        ensures seat { IsReady self.now.turns.table.shared.table_id self.now.turns.round seat.new }
        ensures parts { seat.new.me.0.parts ≡ seat.old.me.0.parts + length tracks.items }
        ensures noted { HasNoted seat.old.me.0.round (index_among self.now.layout) seat.new.me.0 (all_of (journals_of home.new.journals.items)) }
        ensures others { (home.new.harts ≡ home.old.harts) × (home.new.devices ≡ home.old.devices) }
    {
        let mut rest = tracks.into_iter();
        while let Some(track) = rest.next() {
            self.stand_down(seat, track, passes, home);
        }
        let mut rest = left.into_iter();
        while let Some(pass) = rest.next() {
            passes.push_reserved(pass);
        }
    }
}

/// The actors go to work, each with its track, into room that was made before. It takes no memory.
pub fn post<Q: Drop>(
    actors: Actors,
    tracks: Vec<Track<Q>>,
    mut workers: Vec<HartWorker<Q>>,
    mut posted: Vec<DeviceWorker<Q>>,
) -> AtWork<Q>
    requires tracks { length tracks.items ≡ length actors.harts.items + (length actors.devices.items + 1) }
    requires few { length actors.devices.items ≤ 16 }
    requires workers { (workers.items ≡ []) × (length actors.harts.items ≤ vec_capacity workers) }
    requires posted { (posted.items ≡ []) × (length actors.devices.items ≤ vec_capacity posted) }
    ensures { AreAtWork actors tracks.items result.timer result.workers.items result.devices.items }
{
    let Actors {
        timer,
        harts,
        devices,
    } = actors;
    let mut rest = tracks.into_iter();
    let Some(track) = rest.next() else {
        unreachable!()
    };
    let first = TimerWorker { timer, track };
    let mut harts = harts.into_iter();
    while let Some(hart) = harts.next() {
        let Some(track) = rest.next() else {
            unreachable!()
        };
        workers.push_reserved(HartWorker { hart, track });
    }
    let mut number = 0;
    let mut devices = devices.into_iter();
    while let Some(device) = devices.next() {
        let Some(track) = rest.next() else {
            unreachable!()
        };
        posted.push_reserved(DeviceWorker {
            number,
            device,
            track,
        });
        number += 1;
    }
    AtWork {
        timer: first,
        workers,
        devices: posted,
    }
}

/// They come home, and what they did is in one list, into room that was made before. It takes no memory.
pub fn gather<Q: Drop>(
    crew: AtWork<Q>,
    mut tracks: Vec<Track<Q>>,
    home: &mut HomeRoom,
) -> (Timer, Vec<Track<Q>>)
    requires tracks { tracks.items ≡ [] }
    requires room { length crew.workers.items + (length crew.devices.items + 1) ≤ vec_capacity tracks }
    requires harts { (home.old.harts.items ≡ []) × (length crew.workers.items ≤ vec_capacity home.old.harts) }
    requires devices { (home.old.devices.items ≡ []) × (length crew.devices.items ≤ vec_capacity home.old.devices) }
    ensures timer { result.0 ≡ crew.timer.timer }
    ensures tracks { result.1.items ≡ tracks_of crew.timer crew.workers.items crew.devices.items }
    ensures harts { home.new.harts.items ≡ harts_of crew.workers.items }
    ensures devices { home.new.devices.items ≡ devices_of crew.devices.items }
    ensures others { home.new ≡ record home.old { harts = home.new.harts; devices = home.new.devices } }
{
    let AtWork {
        timer,
        workers,
        devices,
    } = crew;
    let TimerWorker { timer, track } = timer;
    tracks.push_reserved(track);
    let mut rest = workers.into_iter();
    while let Some(worker) = rest.next() {
        let HartWorker { hart, track } = worker;
        home.harts.push_reserved(hart);
        tracks.push_reserved(track);
    }
    let mut rest = devices.into_iter();
    while let Some(posted) = rest.next() {
        let DeviceWorker {
            number: _,
            device,
            track,
        } = posted;
        home.devices.push_reserved(device);
        tracks.push_reserved(track);
    }
    (timer, tracks)
}
