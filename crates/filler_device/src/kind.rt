// What the filler does, beside its rounds.
ghost use Rattle.std.specs.Prelude.{ℕ, ◌≡◌, ◌≤◌, min, replicate, true, false, Some, None, [], get_or};
ghost use Rattle.device_trace.specs.Traces.{setting};
ghost use Rattle.dev_core.specs.Pieces.{total, writable};
ghost use Rattle.dev_core.specs.Collecting.{collect_left};
ghost use Rattle.queue_device.specs.Acting.{Comes, Works, performing};
ghost use Rattle.queue_device.specs.Spilling.{spill_left};
ghost use Rattle.queue_device.specs.declared.lanes.Which.{Which};
ghost use Rattle.queue_device.specs.declared.lanes.Which.TheVariants.{Second};
ghost use Rattle.queue_device.specs.declared.phase.Work.TheVariants as work;
ghost use Rattle.queue_device.specs.Kept.{is_fit_told, work_after};
ghost use Rattle.vq_split.specs.Kept.{are_inside};
ghost use Rattle.filler_device.specs.Filler.{filler, only_read, taken_by};
ghost use Rattle.filler_device.specs.Work.{hand_of, is_work};

use dev_core::{Collect, Gather, Held, readable, total, writable};
use queue_device::{
    Begin, Kind, Spill, TakenChain, TakenParts, Which, Work, collect_again, parts_again,
};
use rate_gate::RateGate;
use std::marker::Model;
use std::mem::replace;
use token_bucket::Bucket;
use vm_types::{Op, Piece, Reply};
use vq_split::{PartList, are_inside};

/// What the API may change.
#[derive(Drop)]
pub enum FillerChange {
    /// The bucket of bytes and that of operations: another one, none, or the one that is there.
    Limits(Option<Option<Bucket>>, Option<Option<Bucket>>),
}

/// What a filler is at.
#[derive(Drop)]
pub enum Stage {
    Rest,
    /// The byte is read.
    Take(Collect),
    /// The bytes are written, so many in all.
    Fill(Spill, u32),
}

/// A device of two queues that fills chains with a byte.
#[derive(Drop)]
pub struct FillerKind {
    byte: u8,
    limits: RateGate,
    stage: Stage,
}

impl Model for FillerKind {
    ghost use Rattle.filler_device.specs.Filler.{Filler};
    ghost use Rattle.filler_device.specs.Work.{IsStage, Kept};

    ghost Value = { Kept };

    ghost view = { λ f. record { own = record { byte = f.byte; limits = f.limits }; stage = f.stage } };

    ghost invariant = { λ f. IsStage f.stage };
}

// So many bytes are filled, at most 64.
fn filled(parts: &PartList) -> usize
    ensures filled { result ≡ min 64 (total (writable parts.now)) }
    ensures most { result ≤ 64 }
{
    let some = total(writable(parts).as_slice());
    some.min(64) as usize
}

// So many copies of a byte.
#[tactic(auto, using(crate::proofs::Passing::copies_of))]
fn copies(byte: u8, count: usize) -> Piece
    requires { count ≤ 64 }
    ensures { result ≡ replicate count byte }
{
    Piece::from_slice(&[byte; 64][..count])
}

fn spilled(byte: u8, parts: &PartList) -> Spill
    ensures { result ≡ record {
      held = replicate (min 64 (total (writable parts.now))) byte;
      to = writable parts.now;
    } }
{
    let mut held = Held::new();
    held.append(&copies(byte, filled(parts)));
    Spill::new(held, writable(parts))
}

impl FillerKind {
    /// A filler of the byte 0 with these limits.
    pub fn new(limits: RateGate) -> FillerKind
        ensures own { result.own ≡ record { byte = 0; limits = limits } }
    {
        FillerKind {
            byte: 0,
            limits,
            stage: Stage::Rest,
        }
    }

    // The byte is read, as long as it isn't there.
    #[tactic(auto, using(crate::proofs::Staying::read_done, crate::proofs::Staying::read_more))]
    fn read(&mut self, from: Collect) -> Option<Option<TakenParts>>
        ensures works { Works (performing (collect_left 1 from) self.old.own (λ e got. Comes e (Some (only_read got))))
            result self.new.own (hand_of self.new.stage).op (hand_of self.new.stage).taking }
        ensures work { (pages : ℕ) (k : Which) → is_work work.Rest pages self.old.stage ≡ true →
            are_inside pages from.from ≡ true → (is_work (work_after result (work.Take k)) pages self.new.stage ≡ true)
            × (is_fit_told filler pages k result ≡ true) }
    {
        if from.is_done(1) {
            return Some(Some(TakenParts::new(PartList::new(), from)));
        }
        let _parts = from.from.parts();
        self.stage = Stage::Take(from);
        None
    }

    // The byte of a chain is taken, if there is one.
    #[tactic(auto, using(crate::proofs::Staying::reads_inside))]
    fn take_byte(&mut self, parts: &PartList) -> Option<Option<TakenParts>>
        ensures works { Works (taken_by Second parts.now self.old.own)
            result self.new.own (hand_of self.new.stage).op (hand_of self.new.stage).taking }
        ensures work { (pages : ℕ) (k : Which) → is_work work.Rest pages self.old.stage ≡ true →
            are_inside pages parts.now ≡ true → (is_work (work_after result (work.Take k)) pages self.new.stage ≡ true)
            × (is_fit_told filler pages k result ≡ true) }
    {
        let reads = readable(parts);
        if total(reads.as_slice()) == 0 {
            return Some(None);
        }
        let from = Collect {
            from: Gather::new(reads),
            held: Held::new(),
        };
        self.read(from)
    }

    // The bytes are written, as long as there are some.
    #[tactic(auto, using(crate::proofs::Staying::fill_more))]
    fn fill(&mut self, spill: Spill, len: u32) -> Option<Option<u32>>
        ensures works { Works (performing (spill_left spill) self.old.own (λ e left. Comes e (Some len)))
            result self.new.own (hand_of self.new.stage).op (hand_of self.new.stage).serving }
        ensures work { (pages : ℕ) (k : Which) → is_work work.Rest pages self.old.stage ≡ true →
            are_inside pages spill.to ≡ true → is_work (work_after result (work.Serve k)) pages self.new.stage ≡ true }
    {
        if spill.is_done() {
            return Some(Some(len));
        }
        let _parts = spill.to.parts();
        self.stage = Stage::Fill(spill, len);
        None
    }
}

fn spill_again(spill: &Spill) -> Spill
    ensures { result ≡ spill.now }
{
    let held = Held::copy_of(spill.held.as_slice()).unwrap();
    Spill::new(held, parts_again(spill.to.parts()))
}

fn stage_again(stage: &Stage) -> Stage
    ensures { result ≡ stage.now }
{
    match stage {
        Stage::Rest => Stage::Rest,
        Stage::Take(from) => Stage::Take(collect_again(from)),
        Stage::Fill(spill, len) => Stage::Fill(spill_again(spill), *len),
    }
}

// The first byte, or 0.
fn first_of(bytes: &[u8]) -> u8
    ensures { result ≡ get_or bytes.now 0 0 }
{
    if bytes.len() == 0 { 0 } else { bytes[0] }
}

impl Kind for FillerKind {
    ghost use Rattle.device_trace.specs.Traces.{setting};
    ghost use Rattle.filler_device.specs.Filler.{Filler, filler, limited, no_call};
    ghost use Rattle.filler_device.specs.Work.{AnyFiller, hand_of, is_work};
    ghost use Rattle.filler_device.specs.declared.kind.Stage.{Stage};
    ghost use Rattle.std.specs.Prelude.{true};

    type Change = FillerChange;

    ghost Own = { Filler };

    ghost service = { filler };

    ghost changing = { setting limited };

    ghost times = { true };

    ghost calls = { no_call };

    ghost Stage = { Stage };

    ghost own = { λ k. k.own };

    ghost stage = { λ k. k.stage };

    ghost hand = { hand_of };

    ghost is_work = { is_work };

    ghost IsFine = { AnyFiller };

    fn last(&self) -> Which {
        Which::Second
    }

    fn may_ask(&self) -> bool {
        false
    }

    fn may_wait(&self) -> bool {
        true
    }

    fn is_taken(&self, which: Which, chain: &TakenChain) -> bool {
        let _ = which;
        let _ = chain;
        true
    }

    fn is_work(&self, work: Work, pages: u32) -> bool {
        match work {
            Work::Rest => matches!(self.stage, Stage::Rest),
            Work::Answer => false,
            Work::Take(_) => match &self.stage {
                Stage::Take(from) => {
                    from.held.as_slice().len() < 1
                        && 0 < from.from.room()
                        && are_inside(pages, from.from.parts())
                        && from.from.parts().len() <= 256
                }
                _ => false,
            },
            Work::Serve(_) => match &self.stage {
                Stage::Fill(spill, _) => {
                    0 < spill.share()
                        && are_inside(pages, spill.to.parts())
                        && spill.to.parts().len() <= 256
                }
                _ => false,
            },
        }
    }

    fn want(&self) -> Op {
        match &self.stage {
            Stage::Rest => Op::Idle,
            Stage::Take(from) => from.op(),
            Stage::Fill(spill, _) => spill.op(),
        }
    }

    fn asks(&self) -> bool {
        false
    }

    fn question(&self) -> Op {
        Op::Idle
    }

    fn answer(&mut self, reply: &Reply) -> Option<bool> {
        let _ = reply;
        Some(false)
    }

    fn answer_on(&mut self, reply: &Reply) -> Option<bool> {
        let _ = reply;
        Some(false)
    }

    fn wants_chain(&self, which: Which, is_kicked: bool) -> bool {
        match which {
            Which::First | Which::Second => is_kicked,
            Which::Third => false,
        }
    }

    fn begun(&mut self, which: Which) {
        let _ = which;
    }

    fn take(&mut self, which: Which, parts: PartList) -> Option<Option<TakenParts>> {
        match which {
            Which::First => Some(Some(TakenParts::new(parts, Collect::new()))),
            Which::Second => self.take_byte(&parts),
            Which::Third => self.take_byte(&parts),
        }
    }

    #[tactic(auto, using(crate::proofs::Staying::take_next))]
    fn take_on(&mut self, reply: &Reply) -> Option<Option<TakenParts>> {
        match replace(&mut self.stage, Stage::Rest) {
            Stage::Take(from) => {
                let mut from = from;
                from.give(1, reply);
                self.read(from)
            }
            _ => Some(None),
        }
    }

    fn is_timed(&self, which: Which, chain: &TakenChain) -> bool {
        let _ = chain;
        match which {
            Which::First => self.limits.is_limited(),
            Which::Second | Which::Third => false,
        }
    }

    #[tactic(auto, using(crate::proofs::Passing::passes_told))]
    fn passes(&mut self, which: Which, chain: &TakenChain, now: u64) -> bool {
        let _ = which;
        self.limits.passes(filled(chain.parts()) as u64, now)
    }

    fn serves(&self, which: Which, chain: &TakenChain) -> Begin {
        match which {
            Which::First => {
                let spill = spilled(self.byte, chain.parts());
                if spill.is_done() {
                    Begin::Comes(Some(filled(chain.parts()) as u32))
                } else {
                    Begin::Wants(spill.op())
                }
            }
            Which::Second | Which::Third => Begin::Comes(Some(0)),
        }
    }

    fn serve(&mut self, which: Which, chain: &TakenChain) -> Option<Option<u32>> {
        match which {
            Which::First => {
                let spill = spilled(self.byte, chain.parts());
                self.fill(spill, filled(chain.parts()) as u32)
            }
            Which::Second | Which::Third => {
                self.byte = first_of(chain.got().held.as_slice());
                Some(Some(0))
            }
        }
    }

    #[tactic(auto, using(crate::proofs::Staying::fill_next))]
    fn serve_on(&mut self, reply: &Reply) -> Option<Option<u32>> {
        let _ = reply;
        match replace(&mut self.stage, Stage::Rest) {
            Stage::Fill(spill, len) => {
                let mut spill = spill;
                spill.give();
                self.fill(spill, len)
            }
            _ => Some(None),
        }
    }

    fn over(&mut self, which: Which) {
        let _ = which;
    }

    fn reset(&mut self) {}

    fn change(&mut self, change: FillerChange) {
        let FillerChange::Limits(bandwidth, ops) = change;
        self.limits.set_buckets(bandwidth, ops);
    }

    fn change_inside(&mut self, change: FillerChange, op: &Op) -> Option<Reply> {
        let _ = op;
        let FillerChange::Limits(bandwidth, ops) = change;
        self.limits.set_buckets(bandwidth, ops);
        None
    }

    fn again(&self) -> FillerKind {
        FillerKind {
            byte: self.byte,
            limits: self.limits.again(),
            stage: stage_again(&self.stage),
        }
    }
}
