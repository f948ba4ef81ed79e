// A clock in memory.
ghost use Rattle.std.specs.Prelude.{◌≡◌, true};
ghost use Rattle.outside_mem.specs.Listing.{listed};

use crate::numbers::Numbers;
use vm_host::Clock;

/// Gives its numbers as moments. A rest takes no time.
#[derive(Drop)]
pub struct MemoryClock {
    moments: Numbers,
}

impl MemoryClock {
    pub fn new(moments: Numbers) -> MemoryClock
        ensures { ⟦<MemoryClock as Clock>⟧.known result ≡ record { tells = true; left = listed moments } }
    {
        MemoryClock { moments }
    }
}

impl Clock for MemoryClock {
    ghost use Rattle.std.specs.Prelude.{true};
    ghost use Rattle.outside_mem.specs.Listing.{listed};

    ghost known = { λ c. record { tells = true; left = listed c.moments } };

    fn now(&mut self) -> u64 {
        self.moments.next()
    }

    fn rest(&mut self, _most: u64) {}
}
