// Which turns of several harts are slices, and how long a turn in which all harts wait may rest.
ghost use Rattle.std.specs.Prelude.{◌≡◌, ◌↔◌, ◌≤◌, ◌-◌, min, true, false};
ghost use Rattle.std.specs.List.{list_any};
ghost use Rattle.monitor_running.specs.Pacing.{after_rotation, after_slice, ask_time, cost, is_at, is_time_asked, made_from, many, new_pace, rotations, rotations_by, slice_until};

use vm_types::{BoardOp, Entry, Op};

/// Where rotations cost less, so many are made behind a slice as take eight times as long as it does, so that slices take a ninth of
/// the time.
const ROTATIONS_FOR_ONE: u32 = 8;

/// But so many at least.
const LEAST_ROTATIONS: u32 = 99;

/// A slice that takes longer counts as one that takes so many times as long as a rotation: 10,000 rotations are made behind it.
const MOST_TIMES: u64 = 1_250;

/// Behind so many slices in a row rotations are tried again.
const MOST_SLICES: u32 = 99;

/// So many rotations show what slices and rotations cost.
const TRIED: u32 = 2;

/// A turn that takes longer counts as one of some eighteen minutes, in nanoseconds.
const MOST_TIME: u64 = 0x100_0000_0000;

/// The clock rests no longer where a device asks guest time, in nanoseconds.
const MOST_TIMED_REST: u64 = 1_000_000;

/// So many events, from this moment of guest time on.
#[derive(Clone, Copy, Drop)]
struct Made {
    events: u64,
    began: u64,
}

// What a thousand events cost in nanoseconds, where they were over at this moment.
fn cost(made: Made, ended: u64) -> u64
    ensures { result ≡ cost made ended }
{
    ended.saturating_sub(made.began).min(MOST_TIME) * 1_000 / made.events.max(1)
}

// How many rotations take eight times as long as a slice.
fn many(slice: u64, rotation: u64) -> u32
    ensures value { result ≡ many slice rotation }
    ensures most { result ≤ 10000 }
{
    let times = (slice / rotation.max(1)).min(MOST_TIMES) as u32;
    (times * ROTATIONS_FOR_ONE).max(LEAST_ROTATIONS)
}

// Whether a device asks guest time.
fn is_time_asked(op: &Op) -> bool
    ensures { result ≡ is_time_asked op.now }
{
    matches!(op, Op::Board(BoardOp::Time))
}

// Whether guest time was asked in one of these.
fn ask_time(events: &[Entry]) -> bool
    ensures { result ≡ ask_time events.now }
{
    events.iter().any(|event| is_time_asked(&event.op))
}

/// How turns of several harts are made: as slices, or in rotation where that cost less when it was tried last. Time is guest time,
/// which follows the clock, and of which the timer is told in each turn.
#[derive(Drop)]
pub struct Pace {
    /// An actor makes so many steps in a turn at most.
    pub steps: u32,
    /// How many turns may be made in rotation until the next slice.
    pub left: u32,
    /// Whether a device asked guest time when the devices acted last: if it does nothing else, a chain of it waits for that.
    pub is_timed: bool,
    // How many slices were made since the last rotation.
    slices: u32,
    // What they cost.
    slice: Option<u64>,
    rotation: Option<u64>,
    // The last slice, whose end is known by the next reading of the clock.
    made: Option<Made>,
    // The moment at which the last turn of several harts ended.
    ended: Option<u64>,
}

impl Pace {
    /// The first turn of several harts is a slice. An actor makes so many steps in a turn at most.
    pub fn new(steps: u32) -> Pace
        ensures { result ≡ new_pace steps }
    {
        Pace {
            steps,
            left: 0,
            is_timed: false,
            slices: 0,
            slice: None,
            rotation: None,
            made: None,
            ended: None,
        }
    }

    /// Whether the next turn of several harts is a slice. One in rotation is counted.
    pub(crate) fn is_slice_due(&mut self) -> bool
        ensures due { (result ≡ true) ↔ (self.old.left ≡ 0) }
        ensures counted { self.new ≡ record self.old { left = self.old.left - 1 } }
    {
        if self.left == 0 {
            return true;
        }
        self.left -= 1;
        false
    }

    /// The devices made these events.
    pub(crate) fn told_devices(&mut self, events: &[Entry])
        ensures { self.new ≡ record self.old { is_timed = ask_time events.now } }
    {
        self.is_timed = ask_time(events);
    }

    /// So long the clock rests at most, in nanoseconds, where so much is left until a timer interrupt is due: a chain that waits for
    /// guest time is tried again soon.
    pub(crate) fn most_rest(&self, left: u64) -> u64
        ensures timed { self.now.is_timed ≡ true → result ≡ min left 1000000 }
        ensures untimed { self.now.is_timed ≡ false → result ≡ left }
    {
        if self.is_timed {
            left.min(MOST_TIMED_REST)
        } else {
            left
        }
    }

    /// A slice of so many events was made, and guest time was read at these moments.
    pub(crate) fn told_slice(&mut self, events: u64, began: u64, ended: u64)
        ensures after { self.new ≡ after_slice events began ended self.old }
        ensures most { self.new.left ≤ 10000 }
    {
        self.made = self.made_from(events, began);
        self.ended = Some(ended);
        self.slices = self.slices.saturating_add(1);
        self.left = self.rotations();
    }

    /// A rotation of so many events was made. Guest time was read before its turn, before its events, and behind them.
    pub(crate) fn told_rotation(&mut self, events: u64, before: u64, began: u64, ended: u64)
        ensures { self.new ≡ after_rotation events before began ended self.old }
    {
        self.slice = self.slice_until(before, began);
        self.made = None;
        self.rotation = Some(cost(Made { events, began }, ended));
        self.slices = 0;
        self.ended = Some(ended);
    }

    // Whether guest time is still that of the last turn's end, so that no other turn was made since.
    fn is_at(&self, moment: u64) -> bool
        ensures { result ≡ is_at self.now.ended moment }
    {
        match self.ended {
            Some(ended) => ended == moment,
            None => false,
        }
    }

    fn made_from(&self, events: u64, began: u64) -> Option<Made>
        ensures { result ≡ made_from self.now events began }
    {
        if self.is_at(began) {
            Some(Made { events, began })
        } else {
            None
        }
    }

    // What the last slice cost, if it was made before this turn and over when the turn's events began. Where that isn't known, what
    // one cost before it.
    fn slice_until(&self, before: u64, ended: u64) -> Option<u64>
        ensures { result ≡ slice_until self.now before ended }
    {
        if !self.is_at(before) {
            return self.slice;
        }
        match self.made {
            Some(made) => Some(cost(made, ended)),
            None => self.slice,
        }
    }

    // How many rotations may follow a slice.
    fn rotations(&self) -> u32
        ensures value { result ≡ rotations self.now.slices self.now.slice self.now.rotation }
        ensures most { result ≤ 10000 }
    {
        match (self.slice, self.rotation) {
            (Some(slice), Some(rotation)) => self.rotations_by(slice, rotation),
            _ => TRIED,
        }
    }

    // By what both cost.
    fn rotations_by(&self, slice: u64, rotation: u64) -> u32
        ensures value { result ≡ rotations_by self.now.slices slice rotation }
        ensures most { result ≤ 10000 }
    {
        if slice > rotation {
            return many(slice, rotation);
        }
        if self.slices < MOST_SLICES {
            return 0;
        }
        TRIED
    }
}
