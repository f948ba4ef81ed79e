// Where a block device is in a chain.
ghost use Rattle.std.specs.Prelude.{ℕ, ◌≡◌, ◌<◌, ◌≤◌, ◌^◌, length, true, Option, Some, None, IfSome, IfNone, []};
ghost use Rattle.vm_types.specs.Fits.{fits};
ghost use Rattle.dev_core.specs.Collecting.{collect_left, nothing};
ghost use Rattle.vq_split.specs.Inside.{AreInside};
ghost use Rattle.queue_device.specs.declared.lanes.Which.{Which};
ghost use Rattle.queue_device.specs.declared.phase.Work.TheVariants as work;
ghost use Rattle.queue_device.specs.Acting.{Acts, Comes, Works, performing};
ghost use Rattle.queue_device.specs.Confined.{is_chain};
ghost use Rattle.queue_device.specs.Kept.{is_fit_told, work_after};
ghost use Rattle.block_device.specs.declared.data.BlockData.{BlockData};
ghost use Rattle.block_device.specs.declared.work.BlockStage.TheVariants.{Rest};
ghost use Rattle.block_device.specs.Block.{block, headed, served};
ghost use Rattle.block_device.specs.Kept.{is_work, working_from};
ghost use Rattle.block_device.specs.Working.{Working, hand_of, op_at};

use crate::data::BlockData;
use crate::needs::data_out;
use crate::service::{begin, give, wanted};
use crate::stage::ServiceStage;
use crate::valid::is_at;
use dev_core::{Collect, Scatter, last_byte};
use queue_device::{TakenChain, TakenParts, collect_again, parts_again};
use std::marker::Model;
use std::mem::replace;
use vm_types::{Op, Reply};
use vq_split::PartList;

/// What a block device is at in a chain.
#[derive(Clone, Copy, Drop)]
pub enum BlockStage {
    /// No chain is in hand.
    Rest,
    /// The header of a request is read.
    Header,
    /// The request is served, and its status goes to this place.
    Serve(u64, ServiceStage),
}

/// That, with the bytes that are held of a request and the parts that more are read from, and the parts that are still to be
/// written. What is of no more use is cleared.
#[derive(Drop)]
pub struct BlockWork {
    stage: BlockStage,
    from: Collect,
    to: Scatter,
}

impl Model for BlockWork {
    ghost use Rattle.block_device.specs.Working.{IsAt, Working};

    ghost Value = { Working };

    ghost view = { λ w. record { stage = w.stage; from = w.from; to = w.to } };

    ghost invariant = { λ w. IsAt w.stage w.from w.to };
}

// No list of parts has more.
fn are_few(from: &Collect, to: &Scatter)
    ensures { (length from.now.from ≤ 256) × (length to.now ≤ 256) }
{
    let _reads = from.from.parts();
    let _writes = to.parts();
}

impl BlockWork {
    /// No chain in hand.
    pub fn new() -> BlockWork
        ensures { result ≡ record { stage = Rest; from = nothing; to = [] } }
    {
        BlockWork {
            stage: BlockStage::Rest,
            from: Collect::new(),
            to: Scatter::new(PartList::new()),
        }
    }

    /// The work that keeps these, if there may be such a one.
    pub fn from_parts(stage: BlockStage, from: Collect, to: Scatter) -> Option<BlockWork>
        ensures { result ≡ working_from stage from to }
    {
        if is_at(&stage, &from, &to) {
            Some(BlockWork { stage, from, to })
        } else {
            None
        }
    }

    /// What it is at.
    pub fn stage(&self) -> BlockStage
        ensures { result ≡ self.now.stage }
    {
        self.stage
    }

    /// The bytes that are held, and the parts that more are read from.
    pub fn from(&self) -> &Collect
        ensures { result.now ≡ self.now.from }
    {
        &self.from
    }

    /// The parts that are still to be written.
    pub fn to(&self) -> &Scatter
        ensures { result.now ≡ self.now.to }
    {
        &self.to
    }

    /// The work that keeps the same.
    pub fn again(&self) -> BlockWork
        ensures { result ≡ self.now }
    {
        BlockWork {
            stage: self.stage,
            from: collect_again(&self.from),
            to: Scatter::new(parts_again(self.to.parts())),
        }
    }

    /// The act that is wanted; a wait where no chain is in hand.
    pub fn want(&self) -> Op
        ensures { result ≡ op_at self.now.stage self.now.from self.now.to }
    {
        match &self.stage {
            BlockStage::Rest => Op::Idle,
            BlockStage::Header => self.from.op(),
            BlockStage::Serve(at, stage) => wanted(stage, &self.from, &self.to, *at),
        }
    }

    /// The header of a chain with these parts to write is read.
    #[tactic(auto, using(crate::proofs::Working::read_done, crate::proofs::Working::read_more))]
    pub fn read(&mut self, from: Collect, to: PartList) -> Option<Option<TakenParts>>
        requires { 0 < length to }
        ensures works { (e : BlockData) → Works
            (performing (collect_left 16 from) e (λ f got. Comes f (Some (headed to got)))) result
            e (hand_of self.new).op (hand_of self.new).taking }
        ensures work { (pages : ℕ) (which : Which) → is_work work.Rest pages self.old ≡ true →
            AreInside pages from.from → AreInside pages to →
            (is_work (work_after result (work.Take which)) pages self.new ≡ true)
            × (is_fit_told block pages which result ≡ true) }
    {
        if from.is_done(16) {
            return Some(Some(TakenParts::new(to, from)));
        }
        self.stage = BlockStage::Header;
        self.from = from;
        self.to = Scatter::new(to);
        are_few(&self.from, &self.to);
        None
    }

    /// A piece of the header came.
    #[tactic(auto, using(crate::proofs::Working::read_led))]
    pub fn read_on(&mut self, reply: &Reply) -> Option<Option<TakenParts>>
        requires { fits (hand_of self.old).op reply.now ≡ true }
        ensures works { (e : BlockData) → Works ((hand_of self.old).taking e reply.now) result
            e (hand_of self.new).op (hand_of self.new).taking }
        ensures work { (pages : ℕ) (which : Which) → pages < 2 ^ 32 → is_work (work.Take which) pages self.old ≡ true →
            (is_work (work_after result (work.Take which)) pages self.new ≡ true)
            × (is_fit_told block pages which result ≡ true) }
    {
        if let BlockStage::Header = self.stage {
            let mut work = replace(self, BlockWork::new());
            work.from.give(16, reply);
            let to = parts_again(work.to.parts());
            return self.read(work.from, to);
        }
        Some(None)
    }

    /// With this the service of a chain begins, if its header is whole.
    #[tactic(auto, using(crate::proofs::Working::served_acts, crate::proofs::Working::served_short))]
    pub fn serving(facts: &BlockData, chain: &TakenChain) -> Option<BlockWork>
        ensures some { IfSome result (λ w. served (headed chain.now.parts chain.now.got) facts.now ≡
            Acts facts.now (hand_of w).op (hand_of w).serving) }
        ensures none { IfNone result (served (headed chain.now.parts chain.now.got) facts.now ≡ Comes facts.now None) }
        ensures work { IfSome result (λ w. (pages : ℕ) (which : Which) → pages < 2 ^ 32 →
            is_chain block pages which chain.now ≡ true → is_work (work.Serve which) pages w ≡ true) }
    {
        let mut from = collect_again(chain.got());
        if from.held.as_slice().len() < 16 {
            return None;
        }
        let mut to = Scatter::new(parts_again(chain.parts().as_slice()));
        let at = last_byte(to.parts());
        let data_out = data_out(&from);
        let stage = begin(facts, &mut from, &mut to, data_out);
        are_few(&from, &to);
        Some(BlockWork {
            stage: BlockStage::Serve(at, stage),
            from,
            to,
        })
    }

    /// A reply came to the service of a request. The used length at the end.
    #[tactic(auto, using(crate::proofs::Working::serve_acts))]
    pub fn serve_on(&mut self, reply: &Reply) -> Option<Option<u32>>
        requires { fits (hand_of self.old).op reply.now ≡ true }
        ensures works { (e : BlockData) → Works ((hand_of self.old).serving e reply.now) result
            e (hand_of self.new).op (hand_of self.new).serving }
        ensures work { (pages : ℕ) (which : Which) → pages < 2 ^ 32 → is_work (work.Serve which) pages self.old ≡ true →
            is_work (work_after result (work.Serve which)) pages self.new ≡ true }
    {
        if let BlockStage::Serve(at, stage) = self.stage {
            let mut stage = stage;
            return match give(&mut stage, &mut self.from, &mut self.to, at, reply) {
                None => {
                    self.stage = BlockStage::Serve(at, stage);
                    are_few(&self.from, &self.to);
                    None
                }
                Some(used) => {
                    self.stage = BlockStage::Rest;
                    Some(Some(used))
                }
            };
        }
        Some(None)
    }
}
