// What a block device does, beside its rounds.
ghost use Rattle.std.specs.Prelude.{◌≡◌, ◌<◌, false, List, length};
ghost use Rattle.vq_split.specs.declared.queue.Part.{Part};
ghost use Rattle.dev_core.specs.Pieces.{readable, writable};
ghost use Rattle.block_device.specs.Block.{changed, is_short};

use crate::data::BlockData;
use crate::needs::need;
use crate::valid::is_work;
use crate::work::BlockWork;
use dev_core::{Collect, Gather, Held, readable, total, writable};
use queue_device::{Begin, Kind, TakenChain, TakenParts, Which, Work};
use rate_gate::Bucket;
use vm_types::{Op, Reply};
use vq_split::PartList;

/// What the API may change.
#[derive(Drop)]
pub enum BlockChange {
    /// The size of the disk, in sectors of 512 bytes.
    Sectors(u64),
    /// The bucket of bytes and that of operations: another one, none, or the one that is there.
    Limits(Option<Option<Bucket>>, Option<Option<Bucket>>),
}

/// A block device's data, and where it is in a chain.
#[derive(Drop)]
pub struct BlockKind {
    pub facts: BlockData,
    pub work: BlockWork,
}

// Whether a chain that is so read and written has no place for a header or a status.
#[tactic(auto, using(crate::proofs::Working::short_test, crate::proofs::Working::short_some))]
fn is_short(reads: &PartList, writes: &PartList) -> bool
    ensures test { (parts : List Part) → reads.now ≡ readable parts → writes.now ≡ writable parts → result ≡ is_short parts }
    ensures some { result ≡ false → 0 < length writes.now }
{
    total(reads.as_slice()) < 16 || writes.as_slice().len() == 0
}

impl BlockData {
    fn change(&mut self, change: BlockChange)
        ensures { self.new ≡ changed change self.old }
    {
        match change {
            BlockChange::Sectors(sectors) => self.sectors = sectors,
            BlockChange::Limits(bandwidth, ops) => self.limits.set_buckets(bandwidth, ops),
        }
    }
}

impl Kind for BlockKind {
    ghost use Rattle.std.specs.Prelude.{true};
    ghost use Rattle.device_trace.specs.Acts.{is_disk_call};
    ghost use Rattle.device_trace.specs.Traces.{setting};
    ghost use Rattle.block_device.specs.declared.data.BlockData.{BlockData};
    ghost use Rattle.block_device.specs.Block.{block, changed};
    ghost use Rattle.block_device.specs.Kept.{is_work};
    ghost use Rattle.block_device.specs.Working.{IsFine, Working, hand_of};

    type Change = BlockChange;

    ghost Own = { BlockData };

    ghost Stage = { Working };

    ghost service = { block };

    ghost changing = { setting changed };

    ghost times = { true };

    ghost calls = { is_disk_call };

    ghost own = { λ k. k.facts };

    ghost stage = { λ k. k.work };

    ghost hand = { hand_of };

    ghost is_work = { is_work };

    ghost IsFine = { IsFine };

    fn last(&self) -> Which {
        Which::First
    }

    fn may_ask(&self) -> bool {
        false
    }

    fn may_wait(&self) -> bool {
        true
    }

    fn is_taken(&self, which: Which, chain: &TakenChain) -> bool {
        let _ = which;
        0 < chain.parts().as_slice().len()
    }

    fn is_work(&self, work: Work, pages: u32) -> bool {
        is_work(work, pages, &self.work)
    }

    fn want(&self) -> Op {
        self.work.want()
    }

    fn asks(&self) -> bool {
        false
    }

    fn question(&self) -> Op {
        Op::Idle
    }

    fn answer(&mut self, reply: &Reply) -> Option<bool> {
        let _ = reply;
        Some(false)
    }

    fn answer_on(&mut self, reply: &Reply) -> Option<bool> {
        let _ = reply;
        Some(false)
    }

    fn wants_chain(&self, which: Which, is_kicked: bool) -> bool {
        let _ = which;
        is_kicked
    }

    fn begun(&mut self, which: Which) {
        let _ = which;
    }

    #[tactic(auto, using(crate::proofs::Working::take_off))]
    fn take(&mut self, which: Which, parts: PartList) -> Option<Option<TakenParts>> {
        let _ = which;
        let reads = readable(&parts);
        let writes = writable(&parts);
        if is_short(&reads, &writes) {
            return Some(None);
        }
        let from = Collect {
            from: Gather::new(reads),
            held: Held::new(),
        };
        self.work.read(from, writes)
    }

    fn take_on(&mut self, reply: &Reply) -> Option<Option<TakenParts>> {
        self.work.read_on(reply)
    }

    fn is_timed(&self, which: Which, chain: &TakenChain) -> bool {
        let _ = which;
        let _ = chain;
        self.facts.limits.is_limited()
    }

    #[tactic(auto, using(crate::proofs::Passing::passes_told))]
    fn passes(&mut self, which: Which, chain: &TakenChain, now: u64) -> bool {
        let _ = which;
        self.facts.limits.passes(need(chain), now)
    }

    fn serves(&self, which: Which, chain: &TakenChain) -> Begin {
        let _ = which;
        match BlockWork::serving(&self.facts, chain) {
            Some(work) => Begin::Wants(work.want()),
            None => Begin::Comes(None),
        }
    }

    fn serve(&mut self, which: Which, chain: &TakenChain) -> Option<Option<u32>> {
        let _ = which;
        match BlockWork::serving(&self.facts, chain) {
            Some(work) => {
                self.work = work;
                None
            }
            None => Some(None),
        }
    }

    fn serve_on(&mut self, reply: &Reply) -> Option<Option<u32>> {
        self.work.serve_on(reply)
    }

    fn over(&mut self, which: Which) {
        let _ = which;
    }

    fn reset(&mut self) {}

    fn change(&mut self, change: BlockChange) {
        self.facts.change(change);
    }

    fn change_inside(&mut self, change: BlockChange, op: &Op) -> Option<Reply> {
        let _ = op;
        self.facts.change(change);
        None
    }

    fn again(&self) -> BlockKind {
        BlockKind {
            facts: self.facts.again(),
            work: self.work.again(),
        }
    }
}
