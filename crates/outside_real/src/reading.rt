// A source over what can be read, as standard input.
ghost use Rattle.std.specs.Prelude.{◌≡◌, ◌≤◌, length, IfOk};
ghost use Rattle.vm_outside.specs.Known.{Called};
ghost use Rattle.outside_real.specs.Counting.{CountsFailure};

use crate::counted::counted;
use crate::tries;
use std::io::Read;
use vm_outside::{Failed, Source};

/// Gives what its reader gives. A call that a signal cut off is made again, up to 100 times. A read
/// waits as long as the reader does.
#[derive(Drop)]
pub struct Reading<R> {
    reader: R,
    faults: u64,
}

impl<R: Read + Drop> Reading<R> {
    pub fn new(reader: R) -> Reading<R>
        ensures { (⟦<Reading<R> as Source>⟧.known result).health.faults ≡ 0 }
    {
        Reading { reader, faults: 0 }
    }

    /// How many calls have failed. It stays at its last value.
    pub fn faults(&self) -> u64
        ensures { result ≡ (⟦<Reading<R> as Source>⟧.known self.now).health.faults }
    {
        self.faults
    }
}

impl<R: Read + Drop> Source for Reading<R> {
    ghost use Rattle.std.specs.Prelude.{[]};
    ghost use Rattle.outside_real.specs.Counting.{untold};

    ghost known = { λ s. record { health = untold s.faults; left = [] } };

    fn read(&mut self, buf: &mut [u8]) -> Result<usize, Failed>
        ensures bound { IfOk result (λ n. n ≤ length buf.new) }
        ensures counts { CountsFailure (⟦<Reading<R> as Source>⟧.known self.old).health.faults
            (⟦<Reading<R> as Source>⟧.known self.new).health.faults result }
        ensures called { Called (⟦<Reading<R> as Source>⟧.known self.old).health
            (⟦<Reading<R> as Source>⟧.known self.new).health result }
    {
        counted(&mut self.faults, tries::read_some(&mut self.reader, buf))
    }
}
