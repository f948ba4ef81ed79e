// What a balloon does, beside its rounds.
ghost use Rattle.std.specs.Prelude.{ℕ, ◌≡◌, ◌<◌, ◌≤◌, ◌+◌, ◌-◌, ◌*◌, ◌^◌, [], length, true};
ghost use Rattle.queue_device.specs.Acting.{Works, performing};
ghost use Rattle.queue_device.specs.Kept.{work_after};
ghost use Rattle.queue_device.specs.declared.lanes.Which.TheVariants.{First, Third};
ghost use Rattle.queue_device.specs.declared.phase.Work.TheVariants as work;
ghost use Rattle.vq_split.specs.Kept.{are_inside};
ghost use Rattle.dev_core.specs.Pieces.{readable};
ghost use Rattle.balloon_device.specs.Balloon.{pages_done, tags_done};
ghost use Rattle.balloon_device.specs.declared.kind.Stage.TheVariants.{Rest};
ghost use Rattle.balloon_device.specs.Statistics.{no_statistics};
ghost use Rattle.balloon_device.specs.Work.{first_of, hand_of, is_serving, is_stage, is_work, is_zeroing, kept_from, list_left};
ghost use Rattle.balloon_device.specs.Work.{tags_left, zeros_left};

use crate::pages::{NUMBER, next_page};
use crate::statistics::Statistics;
use crate::telling::{ENTRY, tell};
use crate::valid::{WRITES, is_reading, is_stage, is_zeroing};
use dev_core::{Collect, Gather, Held, readable, total};
use queue_device::{Begin, Kind, TakenChain, TakenParts, Which, Work, collect_again};
use std::marker::Model;
use std::mem::replace;
use vm_types::{Op, Piece, Reply};
use vq_split::PartList;

/// What the API may change.
#[derive(Drop)]
pub enum BalloonChange {
    /// How many seconds there are between two chains of statistics.
    Interval(u16),
}

/// What a balloon is at.
#[derive(Drop)]
pub enum Stage {
    Rest,
    /// A list of pages is read on, in a guest of so many pages.
    List {
        list: Collect,
        pages: u32,
    },
    /// A page is zeroed by so many more writes, from an address on, and then the list is read on.
    Zeros {
        list: Collect,
        pages: u32,
        left: u32,
        at: u64,
    },
    /// A chain of statistics is read on, which told this so far.
    Tags {
        from: Collect,
        so_far: Statistics,
    },
}

/// A balloon: its interval of statistics in seconds, the guest time in nanoseconds at which a chain of them was let go on last, and
/// what that told.
#[derive(Drop)]
pub struct BalloonKind {
    interval: u16,
    last: u64,
    statistics: Statistics,
    stage: Stage,
}

impl Model for BalloonKind {
    ghost use Rattle.balloon_device.specs.Balloon.{Balloon};
    ghost use Rattle.balloon_device.specs.Work.{IsStage, Kept};

    ghost Value = { Kept };

    ghost view = { λ b. record {
      own = record { interval = b.interval; last = b.last; statistics = b.statistics };
      stage = b.stage;
    } };

    ghost invariant = { λ b. IsStage b.stage };
}

// All readable bytes of a chain, of which none is read yet.
fn unread(parts: &PartList) -> Collect
    ensures { result ≡ record { from = readable parts.now; held = [] } }
{
    Collect {
        from: Gather::new(readable(parts)),
        held: Held::new(),
    }
}

// How the reading of a chain begins.
fn first_read(parts: &PartList) -> Begin
    ensures { result ≡ first_of (readable parts.now) }
{
    match unread(parts).from.want() {
        Some(op) => Begin::Wants(op),
        None => Begin::Comes(Some(0)),
    }
}

impl BalloonKind {
    /// A balloon whose statistics have this interval, in seconds; 0 where they are off. Nothing was told yet.
    pub fn new(interval: u16) -> BalloonKind
        ensures { result ≡ record {
          own = record { interval = interval; last = 0; statistics = no_statistics };
          stage = Rest;
        } }
    {
        BalloonKind {
            interval,
            last: 0,
            statistics: Statistics::new(),
            stage: Stage::Rest,
        }
    }

    /// The balloon that keeps these, if one may be at this stage.
    #[tactic(auto, using(crate::proofs::Stages::stage_of))]
    pub fn from_parts(
        interval: u16,
        last: u64,
        statistics: Statistics,
        stage: Stage,
    ) -> Option<BalloonKind>
        ensures { result ≡ kept_from (record {
          own = record { interval = interval; last = last; statistics = statistics };
          stage = stage;
        }) }
    {
        if is_stage(&stage) {
            Some(BalloonKind {
                interval,
                last,
                statistics,
                stage,
            })
        } else {
            None
        }
    }

    /// How many seconds there are between two chains of statistics; 0 where they are off.
    pub fn interval(&self) -> u16
        ensures { result ≡ self.now.own.interval }
    {
        self.interval
    }

    /// The guest time in nanoseconds at which a chain of them was let go on last; 0 before the first.
    pub fn last(&self) -> u64
        ensures { result ≡ self.now.own.last }
    {
        self.last
    }

    /// What it is at, where one may be.
    #[tactic(auto, using(crate::proofs::Stages::test_of_stage))]
    pub fn stage(&self) -> &Stage
        ensures stage { result.now ≡ self.now.stage }
        ensures is { is_stage self.now.stage ≡ true }
    {
        &self.stage
    }

    /// What the driver told last of its memory.
    pub fn statistics(&self) -> Statistics
        ensures { result ≡ self.now.own.statistics }
    {
        self.statistics
    }

    // Whether it may be where it is while a chain of this queue is served.
    fn is_serving(&self, which: Which, pages: u32) -> bool
        ensures { result ≡ is_serving which pages self.now.stage }
    {
        match which {
            Which::First => match &self.stage {
                Stage::List { list, pages: of } => *of == pages && is_reading(list, NUMBER, pages),
                Stage::Zeros {
                    list,
                    pages: of,
                    left,
                    at,
                } => *of == pages && is_zeroing(list, *left, *at, pages),
                _ => false,
            },
            Which::Second => false,
            Which::Third => match &self.stage {
                Stage::Tags { from, .. } => is_reading(from, ENTRY, pages),
                _ => false,
            },
        }
    }

    // The pages whose numbers are held are zeroed, and then the next piece of the list is read.
    #[tactic(auto, using(crate::proofs::Staying::list_more, crate::proofs::Staying::zeros_more))]
    fn list_on(&mut self, list: Collect, pages: u32) -> Option<Option<u32>>
        ensures works { Works (performing (list_left pages list) self.old.own pages_done)
            result self.new.own (hand_of self.new.stage).op (hand_of self.new.stage).serving }
        ensures work { is_work work.Rest pages self.old.stage ≡ true → are_inside pages list.from ≡ true → length list.held < 68 →
            is_work (work_after result (work.Serve First)) pages self.new.stage ≡ true }
    {
        let mut list = list;
        if let Some(at) = next_page(&mut list, pages) {
            let _parts = list.from.parts();
            self.stage = Stage::Zeros {
                list,
                pages,
                left: WRITES,
                at,
            };
            return None;
        }
        if list.from.room() == 0 {
            return Some(Some(0));
        }
        let _parts = list.from.parts();
        self.stage = Stage::List { list, pages };
        None
    }

    // A write of the page was made. The others follow, and then the list goes on.
    #[tactic(auto, using(crate::proofs::Staying::zeros_less, crate::proofs::Staying::zeros_done))]
    fn zeros_on(&mut self, list: Collect, pages: u32, left: u32, at: u64) -> Option<Option<u32>>
        requires some { 0 < left }
        requires low { at + 64 * left ≤ 2 ^ 45 }
        ensures works { Works (performing (zeros_left pages list (left - 1) (at + 64)) self.old.own pages_done)
            result self.new.own (hand_of self.new.stage).op (hand_of self.new.stage).serving }
        ensures work { is_work work.Rest pages self.old.stage ≡ true → is_zeroing pages list left at ≡ true →
            is_work (work_after result (work.Serve First)) pages self.new.stage ≡ true }
    {
        if left == 1 {
            return self.list_on(list, pages);
        }
        self.stage = Stage::Zeros {
            list,
            pages,
            left: left - 1,
            at: at + 64,
        };
        None
    }

    // The entries that are held are told, and then the next piece is read. The last byte replaces all that was told before.
    #[tactic(auto, using(crate::proofs::Staying::tags_more))]
    fn tags_on(&mut self, from: Collect, so_far: Statistics) -> Option<Option<u32>>
        ensures works { Works (performing (tags_left from so_far) self.old.own tags_done)
            result self.new.own (hand_of self.new.stage).op (hand_of self.new.stage).serving }
        ensures work { (pages : ℕ) → is_work work.Rest pages self.old.stage ≡ true → are_inside pages from.from ≡ true →
            is_work (work_after result (work.Serve Third)) pages self.new.stage ≡ true }
    {
        let mut from = from;
        let mut so_far = so_far;
        tell(&mut from.held, &mut so_far);
        if from.from.room() == 0 {
            self.statistics = so_far;
            return Some(Some(0));
        }
        let _parts = from.from.parts();
        self.stage = Stage::Tags { from, so_far };
        None
    }
}

// ---- once more

fn stage_again(stage: &Stage) -> Stage
    ensures { result ≡ stage.now }
{
    match stage {
        Stage::Rest => Stage::Rest,
        Stage::List { list, pages } => Stage::List {
            list: collect_again(list),
            pages: *pages,
        },
        Stage::Zeros {
            list,
            pages,
            left,
            at,
        } => Stage::Zeros {
            list: collect_again(list),
            pages: *pages,
            left: *left,
            at: *at,
        },
        Stage::Tags { from, so_far } => Stage::Tags {
            from: collect_again(from),
            so_far: *so_far,
        },
    }
}

impl Kind for BalloonKind {
    ghost use Rattle.device_trace.specs.Traces.{setting};
    ghost use Rattle.balloon_device.specs.Balloon.{Balloon, balloon, changed, no_call};
    ghost use Rattle.balloon_device.specs.Work.{AnyBalloon, hand_of, is_work};
    ghost use Rattle.balloon_device.specs.declared.kind.Stage.{Stage};
    ghost use Rattle.std.specs.Prelude.{true};

    type Change = BalloonChange;

    ghost Own = { Balloon };

    ghost service = { balloon };

    ghost changing = { setting changed };

    ghost times = { true };

    ghost calls = { no_call };

    ghost Stage = { Stage };

    ghost own = { λ k. k.own };

    ghost stage = { λ k. k.stage };

    ghost hand = { hand_of };

    ghost is_work = { is_work };

    ghost IsFine = { AnyBalloon };

    fn last(&self) -> Which {
        Which::Third
    }

    fn may_ask(&self) -> bool {
        false
    }

    fn may_wait(&self) -> bool {
        true
    }

    fn is_taken(&self, which: Which, chain: &TakenChain) -> bool {
        let _ = which;
        let _ = chain;
        true
    }

    fn is_work(&self, work: Work, pages: u32) -> bool {
        match work {
            Work::Rest => matches!(self.stage, Stage::Rest),
            Work::Answer => false,
            Work::Take(_) => false,
            Work::Serve(which) => self.is_serving(which, pages),
        }
    }

    fn want(&self) -> Op {
        match &self.stage {
            Stage::Rest => Op::Idle,
            Stage::List { list, .. } => list.op(),
            Stage::Zeros { at, .. } => Op::Write {
                at: *at,
                piece: Piece::from_slice(&[0; 64]),
            },
            Stage::Tags { from, .. } => from.op(),
        }
    }

    fn asks(&self) -> bool {
        false
    }

    fn question(&self) -> Op {
        Op::Idle
    }

    fn answer(&mut self, reply: &Reply) -> Option<bool> {
        let _ = reply;
        Some(false)
    }

    #[tactic(auto, using(crate::proofs::Staying::answer_rests))]
    fn answer_on(&mut self, reply: &Reply) -> Option<bool> {
        let _ = reply;
        Some(false)
    }

    fn wants_chain(&self, which: Which, is_kicked: bool) -> bool {
        let _ = which;
        is_kicked
    }

    fn begun(&mut self, which: Which) {
        let _ = which;
    }

    #[tactic(auto, using(crate::proofs::Staying::taken))]
    fn take(&mut self, which: Which, parts: PartList) -> Option<Option<TakenParts>> {
        match which {
            Which::First | Which::Second => {
                if total(readable(&parts).as_slice()) % 4 == 0 {
                    Some(Some(TakenParts::new(parts, Collect::new())))
                } else {
                    Some(None)
                }
            }
            Which::Third => Some(Some(TakenParts::new(parts, Collect::new()))),
        }
    }

    #[tactic(auto, using(crate::proofs::Staying::take_rests))]
    fn take_on(&mut self, reply: &Reply) -> Option<Option<TakenParts>> {
        let _ = reply;
        Some(None)
    }

    fn is_timed(&self, which: Which, chain: &TakenChain) -> bool {
        let _ = chain;
        match which {
            Which::First | Which::Second => false,
            Which::Third => self.interval != 0,
        }
    }

    fn passes(&mut self, which: Which, chain: &TakenChain, now: u64) -> bool {
        let _ = which;
        let _ = chain;
        let interval = self.interval as u64 * 1_000_000_000;
        if now < interval || now - interval < self.last {
            return false;
        }
        self.last = now;
        true
    }

    fn serves(&self, which: Which, chain: &TakenChain) -> Begin {
        match which {
            Which::First => first_read(chain.parts()),
            Which::Second => Begin::Comes(Some(0)),
            Which::Third => first_read(chain.parts()),
        }
    }

    fn serve(&mut self, which: Which, chain: &TakenChain) -> Option<Option<u32>> {
        match which {
            Which::First => self.list_on(unread(chain.parts()), chain.queue().fields().pages),
            Which::Second => Some(Some(0)),
            Which::Third => self.tags_on(unread(chain.parts()), Statistics::new()),
        }
    }

    fn serve_on(&mut self, reply: &Reply) -> Option<Option<u32>> {
        match replace(&mut self.stage, Stage::Rest) {
            Stage::Rest => Some(None),
            Stage::List { list, pages } => {
                let mut list = list;
                let piece = list.from.give(reply);
                list.held.append(&piece);
                self.list_on(list, pages)
            }
            Stage::Zeros {
                list,
                pages,
                left,
                at,
            } => self.zeros_on(list, pages, left, at),
            Stage::Tags { from, so_far } => {
                let mut from = from;
                let piece = from.from.give(reply);
                from.held.append(&piece);
                self.tags_on(from, so_far)
            }
        }
    }

    fn over(&mut self, which: Which) {
        let _ = which;
    }

    fn reset(&mut self) {
        self.last = 0;
        self.statistics = Statistics::new();
    }

    fn change(&mut self, change: BalloonChange) {
        let BalloonChange::Interval(seconds) = change;
        self.interval = seconds;
    }

    fn change_inside(&mut self, change: BalloonChange, op: &Op) -> Option<Reply> {
        let _ = op;
        let BalloonChange::Interval(seconds) = change;
        self.interval = seconds;
        None
    }

    fn again(&self) -> BalloonKind {
        BalloonKind {
            interval: self.interval,
            last: self.last,
            statistics: self.statistics,
            stage: stage_again(&self.stage),
        }
    }
}
