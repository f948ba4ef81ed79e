// What is left to do of a merge.
ghost use Rattle.std.specs.Prelude.{◌≡◌, ◌≤◌, length, slice_get};
ghost use Rattle.snap_memory.specs.Headers.{identity_of};
ghost use Rattle.snapshot_merge.specs.Merges.{
  begun_merge,
  done_merge,
  merge_of,
  new_merge,
  open_slots,
  unfinished_merge,
  was_merged,
};

use file_format::is_same;
use refusals::Refusal;
use snap_diff::DiffNames;
use snap_memory::{MemHeader, Slot};

const SLOTS: u32 = 100;

/// What is left to do of a merge.
#[derive(Clone, Copy, Drop)]
pub enum Merge {
    /// All of it, by way of the slot of this number.
    Begin { slot: u32 },
    /// All from the pages on: the slot of this number has the diff's identity.
    GoOn { slot: u32 },
    /// The merging byte alone.
    Finish,
}

/// What is left to do of the merge of a diff of these names into a base of this header, or why it is refused: other
/// pages, a parent that isn't the base's identity, no slot that is left, or another merge that is unfinished.
pub fn merge_of(base: &MemHeader, diff: &DiffNames) -> Result<Merge, Refusal>
    ensures { result ≡ merge_of base.now diff.now }
{
    if diff.pages != base.pages {
        return Err(Refusal::SizesDiffer);
    }
    if base.merging == 0 {
        new_merge(base, diff)
    } else {
        unfinished_merge(base, diff)
    }
}

/// Whether a diff of these names was merged into a base of this header before: no merge is unfinished, and the base has the
/// diff's own identity.
pub(crate) fn was_merged(base: &MemHeader, diff: &DiffNames) -> bool
    ensures { result ≡ was_merged base.now diff.now }
{
    diff.pages == base.pages && base.merging == 0 && is_same(base.identity(), diff.identity)
}

// How many slots at the front are open.
fn open_slots(slots: &[Slot]) -> u32
    requires { length slots.now ≤ 100 }
    ensures { result ≡ open_slots slots.now }
{
    let mut count = 0;
    for slot in slots {
        if slot.gate != 1 {
            return count;
        }
        count += 1;
    }
    count
}

fn new_merge(base: &MemHeader, diff: &DiffNames) -> Result<Merge, Refusal>
    ensures { result ≡ new_merge base.now diff.now }
{
    if !is_same(diff.parent, base.identity()) {
        return Err(Refusal::ParentDiffers);
    }
    let slot = open_slots(&base.slots);
    if slot == SLOTS {
        return Err(Refusal::NoSlotLeft);
    }
    Ok(Merge::Begin { slot })
}

fn unfinished_merge(base: &MemHeader, diff: &DiffNames) -> Result<Merge, Refusal>
    ensures { result ≡ unfinished_merge base.now diff.now (slice_get base.now.slots (open_slots base.now.slots)) }
{
    let number = open_slots(&base.slots);
    match base.slots.get(number as usize) {
        Some(slot) if slot.identity.number != 0 => begun_merge(base, diff, slot, number),
        _ => done_merge(base, diff),
    }
}

fn begun_merge(
    base: &MemHeader,
    diff: &DiffNames,
    slot: &Slot,
    number: u32,
) -> Result<Merge, Refusal>
    requires { number ≡ open_slots base.now.slots }
    ensures { result ≡ begun_merge base.now diff.now slot.now }
{
    if is_same(slot.identity, diff.identity) && is_same(diff.parent, base.identity()) {
        Ok(Merge::GoOn { slot: number })
    } else {
        Err(Refusal::MergeUnfinished)
    }
}

fn done_merge(base: &MemHeader, diff: &DiffNames) -> Result<Merge, Refusal>
    ensures { result ≡ done_merge base.now diff.now }
{
    if is_same(base.identity(), diff.identity) {
        Ok(Merge::Finish)
    } else {
        Err(Refusal::MergeUnfinished)
    }
}
