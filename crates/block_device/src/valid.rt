// Which states a block device may be in, beside its rounds.
ghost use Rattle.std.specs.Prelude.{◌≡◌, true};
ghost use Rattle.block_device.specs.Kept as tests;
ghost use Rattle.block_device.specs.Working.{IsAt};

use crate::stage::{ServiceStage, share};
use crate::work::{BlockStage, BlockWork};
use dev_core::{Collect, Scatter};
use queue_device::Work;
use vq_split::{Part, are_inside, is_inside};

fn is_within(sector: u64, unit: u64, more: u64) -> bool
    ensures { result ≡ tests.is_within sector unit more }
{
    let last = unit as u128 + more as u128;
    last < 0x4_0000_0000_0000 && sector as u128 + last / 8 < 0x1_0000_0000_0000_0000
}

fn is_nothing(from: &Collect) -> bool
    ensures { result ≡ tests.is_nothing from.now }
{
    from.from.parts().len() == 0 && from.held.as_slice().len() == 0
}

fn is_clear(from: &Collect, to: &Scatter) -> bool
    ensures { result ≡ tests.is_clear from.now to.now }
{
    is_nothing(from) && to.parts().len() == 0
}

fn is_stage(stage: &ServiceStage, from: &Collect, to: &Scatter) -> bool
    ensures { result ≡ tests.is_stage stage.now from.now to.now }
{
    match *stage {
        ServiceStage::Read { sector, unit, more } => {
            is_within(sector, unit, more) && is_nothing(from) && unit < 0x400_0000
        }
        ServiceStage::Put { sector, unit, more } => {
            is_within(sector, unit, more)
                && from.from.parts().len() == 0
                && 0 < share(&from.held, to)
                && unit < 0x400_0000
        }
        ServiceStage::PutId => from.from.parts().len() == 0 && 0 < share(&from.held, to),
        ServiceStage::Gather { sector, part, more } => {
            is_within(sector, part, more)
                && to.parts().len() == 0
                && from.held.as_slice().len() < 64
                && 0 < from.from.room()
                && part < 8
        }
        ServiceStage::Disk { sector, part, more } => {
            is_within(sector, part, more) && to.parts().len() == 0 && part < 8
        }
        ServiceStage::Flush | ServiceStage::Status { .. } => is_clear(from, to),
    }
}

fn is_set(stage: &BlockStage, from: &Collect, to: &Scatter) -> bool
    ensures { result ≡ tests.is_at stage.now from.now to.now }
{
    match stage {
        BlockStage::Rest => is_clear(from, to),
        BlockStage::Header => {
            from.held.as_slice().len() < 16 && 0 < from.from.room() && 0 < to.parts().len()
        }
        BlockStage::Serve(_, stage) => is_stage(stage, from, to),
    }
}

/// Whether what is kept fits what a block device is at in a chain.
#[tactic(auto, using(crate::proofs::Kept::at_of))]
pub fn is_at(stage: &BlockStage, from: &Collect, to: &Scatter) -> bool
    ensures test { result ≡ tests.is_at stage.now from.now to.now }
    ensures state { result ≡ true → IsAt stage.now from.now to.now }
{
    is_set(stage, from, to)
}

fn is_of(work: Work, stage: BlockStage) -> bool
    ensures { result ≡ tests.is_of work stage }
{
    match work {
        Work::Rest => matches!(stage, BlockStage::Rest),
        Work::Answer => false,
        Work::Take(_) => matches!(stage, BlockStage::Header),
        Work::Serve(_) => matches!(stage, BlockStage::Serve(_, _)),
    }
}

fn has_place(pages: u32, stage: BlockStage) -> bool
    ensures { result ≡ tests.has_place pages stage }
{
    match stage {
        BlockStage::Rest | BlockStage::Header => true,
        BlockStage::Serve(at, _) => is_inside(pages, at, 1),
    }
}

fn are_placed(pages: u32, parts: &[Part]) -> bool
    ensures { result ≡ tests.are_placed pages parts.now }
{
    are_inside(pages, parts) && parts.len() <= 256
}

/// Whether a block device may be where it is, by this work of its device in a guest of so many pages.
pub fn is_work(work: Work, pages: u32, kept: &BlockWork) -> bool
    ensures { result ≡ tests.is_work work pages kept.now }
{
    is_of(work, kept.stage())
        && is_at(&kept.stage(), kept.from(), kept.to())
        && has_place(pages, kept.stage())
        && are_placed(pages, kept.from().from.parts())
        && are_placed(pages, kept.to().parts())
}
