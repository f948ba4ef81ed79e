// A sink over standard output that nobody may read.
ghost use Rattle.std.specs.Prelude.{◌≡◌, ◌≤◌, ◌<◌, length, IfOk};
ghost use Rattle.vm_outside.specs.Known.{Called};
ghost use Rattle.outside_real.specs.Counting.{CountsFailure};

use crate::counted::counted;
use crate::outlet::Outlet;
use std::io::Write;
use std::os::unix::io::AsRawFd;
use std::rt;
use vm_outside::{Failed, Sink};

/// Hands bytes to its writer, which has no buffer of its own. Until it is asked whether it is ready each write waits as long as its
/// writer does, as `Writing` has it.
///
/// From then on it takes a text of up to 4,096 bytes, writes what can be written without waiting for who reads, and keeps the rest.
/// It is ready where nothing is kept; who asks has it write what can be written by then. A write where something is kept still
/// has that out first, and waits for it, five seconds at most for each part; then it has failed, and what was kept is lost. `finish`
/// has the last of it out. A process that is ended before loses what is kept.
///
/// The output may be shared with other programs, so it is left as it is: it is asked whether it can be written, and a pipe that can
/// takes 4,096 bytes at once. A terminal may be waited for, and a pipe that another program fills at that moment.
#[derive(Drop)]
pub struct Output<'a, W, R> {
    outlet: Outlet<'a, W, R>,
    faults: u64,
}

impl<'a, W: Write + AsRawFd + Drop, R: rt::Clock + AllocGlobal> Output<'a, W, R> {
    pub fn new(rt: &'a R, writer: W) -> Output<'a, W, R>
        ensures { (⟦<Output<'a, W, R> as Sink>⟧.known result).health.faults ≡ 0 }
    {
        Output {
            outlet: Outlet::new(rt, writer),
            faults: 0,
        }
    }

    /// How many calls have failed. It stays at its last value.
    pub fn faults(&self) -> u64
        ensures { result ≡ (⟦<Output<'a, W, R> as Sink>⟧.known self.now).health.faults }
    {
        self.faults
    }

    /// Has all out that is kept.
    pub fn finish(&mut self) -> Result<(), Failed>
        ensures counts { CountsFailure (⟦<Output<'a, W, R> as Sink>⟧.known self.old).health.faults
            (⟦<Output<'a, W, R> as Sink>⟧.known self.new).health.faults result }
    {
        counted(&mut self.faults, self.outlet.finish())
    }
}

impl<'a, W: Write + AsRawFd + Drop, R: rt::Clock + AllocGlobal> Sink for Output<'a, W, R> {
    ghost use Rattle.std.specs.Prelude.{[]};
    ghost use Rattle.outside_real.specs.Counting.{untold};

    ghost known = { λ s. record { health = untold s.faults; taken = [] } };

    fn write(&mut self, bytes: &[u8]) -> Result<usize, Failed>
        ensures bound { IfOk result (λ n. n ≤ length bytes.now) }
        ensures some { IfOk result (λ n. 0 < length bytes.now → 0 < n) }
        ensures counts { CountsFailure (⟦<Output<'a, W, R> as Sink>⟧.known self.old).health.faults
            (⟦<Output<'a, W, R> as Sink>⟧.known self.new).health.faults result }
        ensures called { Called (⟦<Output<'a, W, R> as Sink>⟧.known self.old).health
            (⟦<Output<'a, W, R> as Sink>⟧.known self.new).health result }
    {
        counted(&mut self.faults, self.outlet.take(bytes))
    }

    fn ready(&mut self) -> bool {
        self.outlet.is_ready()
    }
}
