// What a queue's own fields have wrong.
ghost use Rattle.std.specs.Prelude.{◌≡◌, ◌≤◌, None, true};
ghost use Rattle.vq_split.specs.Walking.{IsSound, AreTables};
ghost use Rattle.vq_split.specs.Chain.{are_tables, event_bytes, is_size, queue_flaw};

use crate::fields::is_inside;
use crate::queue::{Queue, Why};

fn is_size(size: u16) -> bool
    ensures { result ≡ is_size size }
{
    size == 1
        || size == 2
        || size == 4
        || size == 8
        || size == 16
        || size == 32
        || size == 64
        || size == 128
        || size == 256
}

// How many bytes either ring has more for its event.
fn event_bytes(queue: &Queue) -> u64
    ensures bytes { result ≡ event_bytes queue.now }
    ensures most { result ≤ 2 }
{
    if queue.accepted.event_index { 2 } else { 0 }
}

/// Whether the three tables are aligned and inside RAM, with the events behind the rings where these were accepted.
pub fn are_tables(queue: &Queue) -> bool
    requires { queue.now.size ≤ 256 }
    ensures test { result ≡ are_tables queue.now }
    ensures tables { result ≡ true → AreTables queue.now }
{
    let size = queue.size as u64;
    let more = event_bytes(queue);
    queue.descriptors % 16 == 0
        && is_inside(queue.pages, queue.descriptors, 16 * size)
        && queue.available % 2 == 0
        && is_inside(queue.pages, queue.available, 4 + 2 * size + more)
        && queue.used % 4 == 0
        && is_inside(queue.pages, queue.used, 4 + 8 * size + more)
}

/// What a queue's own fields have wrong: the first that fits.
pub fn queue_flaw(queue: &Queue) -> Option<Why>
    ensures first { result ≡ queue_flaw queue.now }
    ensures sound { result ≡ None → IsSound queue.now }
{
    if !is_size(queue.size) {
        Some(Why::Size)
    } else if !are_tables(queue) {
        Some(Why::Table)
    } else {
        None
    }
}
