// Tests of what a balloon is at.
ghost use Rattle.std.specs.Prelude.{◌≡◌};
ghost use Rattle.balloon_device.specs.Work.{is_open, is_reading, is_stage, is_zeroing};

use crate::kind::Stage;
use crate::pages::NUMBER;
use crate::telling::ENTRY;
use dev_core::Collect;
use vq_split::{are_inside, is_inside};

/// How many writes of 64 bytes a page takes.
pub(crate) const WRITES: u32 = 64;

/// No write ends behind this.
const LAST: u128 = 1 << 45;

// Whether bytes are left to read, inside RAM of so many pages, with fewer than so many that are held.
pub(crate) fn is_reading(from: &Collect, most: usize, pages: u32) -> bool
    ensures { result ≡ is_reading pages most from.now }
{
    from.held.as_slice().len() < most
        && 0 < from.from.room()
        && are_inside(pages, from.from.parts())
        && from.from.parts().len() <= 256
}

// Whether writes of one page are left, inside RAM, and the parts that are read after them are inside it too.
pub(crate) fn is_zeroing(list: &Collect, left: u32, at: u64, pages: u32) -> bool
    ensures { result ≡ is_zeroing pages list.now left at }
{
    0 < left
        && left <= WRITES
        && is_inside(pages, at, 64 * left as u64)
        && list.held.as_slice().len() < 64
        && are_inside(pages, list.from.parts())
        && list.from.parts().len() <= 256
}

fn is_open(from: &Collect, most: usize) -> bool
    ensures { result ≡ is_open most from.now }
{
    from.held.as_slice().len() < most && 0 < from.from.room()
}

// Whether there is something to want.
pub(crate) fn is_stage(stage: &Stage) -> bool
    ensures { result ≡ is_stage stage.now }
{
    match stage {
        Stage::Rest => true,
        Stage::List { list, pages: _ } => is_open(list, NUMBER),
        Stage::Zeros { left, at, .. } => 0 < *left && *at as u128 + 64 * *left as u128 <= LAST,
        Stage::Tags { from, so_far: _ } => is_open(from, ENTRY),
    }
}
