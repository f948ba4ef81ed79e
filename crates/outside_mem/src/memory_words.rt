// Words in memory with calls that fail.
ghost use Rattle.std.specs.Prelude.{◌≡◌, true};
ghost use Rattle.outside_mem.specs.Listing.{listed};

use crate::failing::Failing;
use crate::numbers::Numbers;
use serve_host::Words;
use vm_outside::Failed;

/// Gives its numbers, but for the calls that are to fail.
#[derive(Drop)]
pub struct MemoryWords {
    numbers: Numbers,
    failing: Failing,
}

impl MemoryWords {
    pub fn new(numbers: Numbers, failing: Failing) -> MemoryWords
        ensures { ⟦<MemoryWords as Words>⟧.known result ≡
            record { health = record { tells = true; faults = failing }; left = listed numbers } }
    {
        MemoryWords { numbers, failing }
    }

    /// How many calls have failed.
    pub fn faults(&self) -> u64
        ensures { result ≡ (⟦<MemoryWords as Words>⟧.known self.now).health.faults }
    {
        self.failing.faults()
    }
}

impl Words for MemoryWords {
    ghost use Rattle.std.specs.Prelude.{true};
    ghost use Rattle.outside_mem.specs.Listing.{listed};

    ghost known = { λ w. record { health = record { tells = true; faults = w.failing }; left = listed w.numbers } };

    fn next(&mut self) -> Result<u64, Failed> {
        if self.failing.fails() {
            return Err(Failed);
        }
        Ok(self.numbers.next())
    }
}
