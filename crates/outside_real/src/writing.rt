// A sink over what can be written to, as standard output.
ghost use Rattle.std.specs.Prelude.{◌≡◌, ◌≤◌, ◌<◌, length, IfOk};
ghost use Rattle.vm_outside.specs.Known.{Called};
ghost use Rattle.outside_real.specs.Counting.{CountsFailure};

use crate::counted::counted;
use crate::tries;
use std::io;
use std::io::Write;
use vm_outside::{Failed, Sink};

/// Hands bytes to its writer, and has each piece out of the writer's own buffer before it answers: a
/// full disk is a failure of the write that met it. After a failure it isn't known how many bytes of
/// that piece have gone. A call that a signal cut off is made again, up to 100 times.
#[derive(Drop)]
pub struct Writing<W> {
    writer: W,
    faults: u64,
}

impl<W: Write + Drop> Writing<W> {
    pub fn new(writer: W) -> Writing<W>
        ensures { (⟦<Writing<W> as Sink>⟧.known result).health.faults ≡ 0 }
    {
        Writing { writer, faults: 0 }
    }

    /// How many calls have failed. It stays at its last value.
    pub fn faults(&self) -> u64
        ensures { result ≡ (⟦<Writing<W> as Sink>⟧.known self.now).health.faults }
    {
        self.faults
    }
}

impl<W: Write + Drop> Sink for Writing<W> {
    ghost use Rattle.std.specs.Prelude.{[]};
    ghost use Rattle.outside_real.specs.Counting.{untold};

    ghost known = { λ s. record { health = untold s.faults; taken = [] } };

    fn write(&mut self, bytes: &[u8]) -> Result<usize, Failed>
        ensures bound { IfOk result (λ n. n ≤ length bytes.now) }
        ensures some { IfOk result (λ n. 0 < length bytes.now → 0 < n) }
        ensures counts { CountsFailure (⟦<Writing<W> as Sink>⟧.known self.old).health.faults
            (⟦<Writing<W> as Sink>⟧.known self.new).health.faults result }
        ensures called { Called (⟦<Writing<W> as Sink>⟧.known self.old).health
            (⟦<Writing<W> as Sink>⟧.known self.new).health result }
    {
        counted(&mut self.faults, send_some(&mut self.writer, bytes))
    }

    /// Each write waits as long as its writer does, and so does whoever asks.
    fn ready(&mut self) -> bool
        ensures same { self.new ≡ self.old }
    {
        true
    }
}

/// One write, and what the writer holds back.
pub(crate) fn send_some<W: Write>(writer: &mut W, bytes: &[u8]) -> io::Result<usize>
    ensures bound { IfOk result (λ n. n ≤ length bytes.now) }
    ensures some { IfOk result (λ n. 0 < length bytes.now → 0 < n) }
{
    let count = tries::write_some(writer, bytes)?;
    tries::flush(writer)?;
    Ok(count)
}
