// What the driver tells of its memory.
ghost use Rattle.std.specs.Prelude.{◌≡◌};
ghost use Rattle.balloon_device.specs.Statistics.{no_statistics, with_value};

/// How many tags are known.
const KNOWN_TAGS: usize = 10;

/// The values of the tags that the driver told, by their numbers (VIRTIO 1.2, 5.5.6.4): 0 memory swapped in and 1 swapped out, in
/// bytes; 2 major and 3 minor page faults; 4 unused, 5 total and 6 available memory and 7 disk caches, in bytes; 8 huge pages that
/// were allocated and 9 that couldn't be.
#[derive(Clone, Copy, Drop)]
pub struct Statistics {
    pub values: [Option<u64>; 10],
}

impl Statistics {
    /// No tag has a value.
    pub fn new() -> Statistics
        ensures { result ≡ no_statistics }
    {
        Statistics {
            values: [None; KNOWN_TAGS],
        }
    }

    // A tag has this value now. A tag that isn't known is ignored.
    pub(crate) fn set(&mut self, tag: u16, value: u64)
        ensures { self.new ≡ with_value tag value self.old }
    {
        let tag = tag as usize;
        if tag < KNOWN_TAGS {
            self.values[tag] = Some(value);
        }
    }
}
