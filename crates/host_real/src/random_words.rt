// Words from the system's source of random bytes.
ghost use Rattle.std.specs.Prelude.{◌≡◌};

use outside_real::counted::counted;
use serve_host::Words;
use std::io;
use std::random::RandomSource;
use vm_host::GuestWords;
use vm_outside::Failed;

/// Draws each word anew from the system.
#[derive(Drop)]
pub struct RandomWords<'a, R> {
    rt: &'a R,
    faults: u64,
}

impl<'a, R: RandomSource> RandomWords<'a, R> {
    pub fn new(rt: &'a R) -> RandomWords<'a, R>
        ensures { (⟦<RandomWords<'a, R> as Words>⟧.known result).health.faults ≡ 0 }
    {
        RandomWords { rt, faults: 0 }
    }

    /// How many calls have failed. It stays at its last value.
    pub fn faults(&self) -> u64
        ensures { result ≡ (⟦<RandomWords<'a, R> as Words>⟧.known self.now).health.faults }
    {
        self.faults
    }
}

impl<'a, R: RandomSource> Words for RandomWords<'a, R> {
    ghost use Rattle.outside_real.specs.Counting.{untold};

    ghost known = { λ w. record { health = untold w.faults; left = λ n. 0 } };

    fn next(&mut self) -> Result<u64, Failed> {
        counted(&mut self.faults, draw(self.rt))
    }
}

impl<'a, R: RandomSource> GuestWords for RandomWords<'a, R> {
    ghost use Rattle.outside_real.specs.Counting.{untold};

    ghost known = { λ w. record { health = untold w.faults; left = λ device n. 0 } };

    /// A device is given words that no other one is.
    fn word(&mut self, device: u8) -> Result<u64, Failed> {
        let _ = device;
        counted(&mut self.faults, draw(self.rt))
    }
}

fn draw<R: RandomSource>(rt: &R) -> io::Result<u64> {
    let mut bytes = [0; 8];
    rt.fill_bytes(&mut bytes)?;
    Ok(u64::from_le_bytes(bytes))
}
