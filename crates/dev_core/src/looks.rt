// What a look at the port shows of a queue.
ghost use Rattle.std.specs.Prelude.{◌≡◌};
ghost use Rattle.dev_core.specs.Looks.{is_workable, no_queue, queue_shown};

use vm_types::{Accepted, QueueShown};
use vq_split::Queue;

/// The queue that a look shows, in a guest of this many pages.
pub fn queue_shown(pages: u32, accepted: Accepted, shown: &QueueShown) -> Queue
    ensures { result ≡ queue_shown pages accepted shown.now }
{
    Queue {
        descriptors: shown.descriptors,
        available: shown.available,
        used: shown.used,
        size: shown.size,
        pages,
        accepted,
    }
}

/// No queue, in a guest of this many pages.
pub fn no_queue(pages: u32) -> Queue
    ensures { result ≡ no_queue pages }
{
    Queue {
        descriptors: 0,
        available: 0,
        used: 0,
        size: 0,
        pages,
        accepted: Accepted {
            indirect: false,
            event_index: false,
        },
    }
}

/// Whether a device works on a queue, where Status is this.
pub fn is_workable(status: u32, shown: &QueueShown) -> bool
    ensures { result ≡ is_workable status shown.now }
{
    status / 4 % 2 == 1 && status / 64 % 2 == 0 && shown.is_ready
}
