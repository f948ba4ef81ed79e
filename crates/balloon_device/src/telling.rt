// Entries of statistics.
ghost use Rattle.std.specs.Prelude.{◌≡◌, ◌<◌, ◌≤◌, length};
ghost use Rattle.balloon_device.specs.Statistics.{all_told};

use crate::statistics::Statistics;
use dev_core::Held;
use vq_split::{value16, value64};

/// The bytes of an entry: its tag and its value.
pub(crate) const ENTRY: usize = 10;

/// Takes all whole entries of the bytes that are held.
pub(crate) fn tell(held: &mut Held, so_far: &mut Statistics)
    ensures told { record { begun = held.new; so_far = so_far.new } ≡ all_told held.old so_far.old }
    ensures begun { length held.new < 10 }
{
    while ENTRY <= held.as_slice().len() {
        let bytes = held.as_slice();
        let tag = value16(bytes, 0);
        let value = value64(bytes, 2);
        so_far.set(tag, value);
        held.skip(ENTRY);
    }
}
