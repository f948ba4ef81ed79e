// Words in memory that never fail.
ghost use Rattle.std.specs.Prelude.{◌≡◌, true, IsOk};
ghost use Rattle.serve_host.specs.Drawing.{Draws};
ghost use Rattle.outside_mem.specs.Listing.{listed};

use crate::numbers::Numbers;
use serve_host::Words;
use vm_outside::Failed;

/// Gives its numbers. No call fails.
#[derive(Drop)]
pub struct SteadyWords {
    numbers: Numbers,
}

impl SteadyWords {
    pub fn new(numbers: Numbers) -> SteadyWords
        ensures { ⟦<SteadyWords as Words>⟧.known result ≡
            record { health = record { tells = true; faults = 0 }; left = listed numbers } }
    {
        SteadyWords { numbers }
    }
}

impl Words for SteadyWords {
    ghost use Rattle.std.specs.Prelude.{true};
    ghost use Rattle.outside_mem.specs.Listing.{listed};

    ghost known = { λ w. record { health = record { tells = true; faults = 0 }; left = listed w.numbers } };

    fn next(&mut self) -> Result<u64, Failed>
        ensures ok { IsOk result }
        ensures draws { Draws (⟦<SteadyWords as Words>⟧.known self.old).left result
            (⟦<SteadyWords as Words>⟧.known self.new).left }
    {
        Ok(self.numbers.next())
    }
}
