// The calls of an entropy device.
ghost use Rattle.std.specs.Prelude.{◌≡◌};
ghost use Rattle.entropy_device.specs.Work.{are_parts};

use crate::kind::{
    EntropyChange, EntropyKind, Stage, WORD_SIZE, filled_length, is_stage, spilled, stage_again,
    without_piece, word_count,
};
use dev_core::{Collect, Scatter, readable, total};
use queue_device::{Begin, Kind, TakenChain, TakenParts, Which, Work, parts_again};
use std::mem::replace;
use vm_types::{Op, OutOp, Reply};
use vq_split::{Part, PartList, are_inside};

// Whether these parts lie inside RAM, and aren't more than a chain has.
fn are_parts(pages: u32, parts: &[Part]) -> bool
    ensures { result ≡ are_parts pages parts.now }
{
    are_inside(pages, parts) && parts.len() <= 256
}

impl Kind for EntropyKind {
    ghost use Rattle.device_trace.specs.Traces.{setting};
    ghost use Rattle.entropy_device.specs.Entropy.{Entropy, entropy, is_word_call, unchanged};
    ghost use Rattle.entropy_device.specs.Work.{AnyEntropy, hand_of, is_work};
    ghost use Rattle.entropy_device.specs.declared.kind.Stage.{Stage};
    ghost use Rattle.std.specs.Prelude.{true};

    type Change = EntropyChange;

    ghost Own = { Entropy };

    ghost service = { entropy };

    ghost changing = { setting unchanged };

    ghost times = { true };

    ghost calls = { is_word_call };

    ghost Stage = { Stage };

    ghost own = { λ k. k.own };

    ghost stage = { λ k. k.stage };

    ghost hand = { hand_of };

    ghost is_work = { is_work };

    ghost IsFine = { AnyEntropy };

    fn last(&self) -> Which {
        Which::First
    }

    fn may_ask(&self) -> bool {
        false
    }

    fn may_wait(&self) -> bool {
        true
    }

    fn is_taken(&self, which: Which, chain: &TakenChain) -> bool {
        let _ = which;
        total(readable(chain.parts()).as_slice()) == 0
    }

    fn is_work(&self, work: Work, pages: u32) -> bool {
        match (work, &self.stage) {
            (Work::Rest, Stage::Rest) => true,
            (Work::Serve(_), Stage::Draw(_, _, to)) => {
                is_stage(&self.stage) && are_parts(pages, to.parts())
            }
            (Work::Serve(_), Stage::Write(_, _, spill)) => {
                is_stage(&self.stage) && are_parts(pages, spill.to.parts())
            }
            _ => false,
        }
    }

    fn want(&self) -> Op {
        match &self.stage {
            Stage::Rest => Op::Idle,
            Stage::Draw(_, _, _) => Op::Out(OutOp::DrawWord),
            Stage::Write(_, _, spill) => spill.op(),
        }
    }

    fn asks(&self) -> bool {
        false
    }

    fn question(&self) -> Op {
        Op::Idle
    }

    fn answer(&mut self, reply: &Reply) -> Option<bool> {
        let _ = reply;
        Some(false)
    }

    fn answer_on(&mut self, reply: &Reply) -> Option<bool> {
        let _ = reply;
        Some(false)
    }

    fn wants_chain(&self, which: Which, is_kicked: bool) -> bool {
        let _ = which;
        is_kicked
    }

    fn begun(&mut self, which: Which) {
        let _ = which;
    }

    #[tactic(auto, using(crate::proofs::Staying::taken))]
    fn take(&mut self, which: Which, parts: PartList) -> Option<Option<TakenParts>> {
        let _ = which;
        if total(readable(&parts).as_slice()) == 0 {
            Some(Some(TakenParts::new(parts, Collect::new())))
        } else {
            Some(None)
        }
    }

    fn take_on(&mut self, reply: &Reply) -> Option<Option<TakenParts>> {
        let _ = reply;
        self.stage = Stage::Rest;
        Some(None)
    }

    fn is_timed(&self, which: Which, chain: &TakenChain) -> bool {
        let _ = which;
        let _ = chain;
        self.limits.is_limited()
    }

    #[tactic(auto, using(crate::proofs::Passing::passes_told))]
    fn passes(&mut self, which: Which, chain: &TakenChain, now: u64) -> bool {
        let _ = which;
        self.limits.passes(filled_length(chain.parts()) as u64, now)
    }

    #[tactic(auto, using(crate::proofs::Working::begins_none, crate::proofs::Working::begins_some))]
    fn serves(&self, which: Which, chain: &TakenChain) -> Begin {
        let _ = which;
        let length = filled_length(chain.parts());
        if word_count(length) == 0 {
            Begin::Comes(Some(length))
        } else {
            Begin::Wants(Op::Out(OutOp::DrawWord))
        }
    }

    fn serve(&mut self, which: Which, chain: &TakenChain) -> Option<Option<u32>> {
        let _ = which;
        self.stage = Stage::Rest;
        let parts = parts_again(chain.parts().as_slice());
        self.draw(filled_length(chain.parts()), 0, Scatter::new(parts))
    }

    #[tactic(auto, using(crate::proofs::Working::word_led, crate::proofs::Working::fail_led, crate::proofs::Working::write_led))]
    fn serve_on(&mut self, reply: &Reply) -> Option<Option<u32>> {
        match replace(&mut self.stage, Stage::Rest) {
            Stage::Draw(length, index, to) => match reply {
                Reply::Drawn { word } => {
                    let spill = spilled(length, index, *word, to);
                    self.write(length, index, spill)
                }
                _ => Some(Some(WORD_SIZE * index)),
            },
            Stage::Write(length, index, spill) => self.write(length, index, without_piece(spill)),
            Stage::Rest => Some(None),
        }
    }

    fn over(&mut self, which: Which) {
        let _ = which;
    }

    fn reset(&mut self) {}

    fn change(&mut self, change: EntropyChange) {
        let _ = change;
    }

    fn change_inside(&mut self, change: EntropyChange, op: &Op) -> Option<Reply> {
        let _ = change;
        let _ = op;
        None
    }

    fn again(&self) -> EntropyKind {
        EntropyKind {
            limits: self.limits.again(),
            stage: stage_again(&self.stage),
        }
    }
}
