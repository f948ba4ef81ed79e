// A trace in a file.
ghost use Rattle.std.specs.Prelude.{◌≡◌};

use crate::limited_file::LimitedFile;
use crate::trace_lines::TraceLines;
use outside_real::counted::counted;
use outside_real::create_private;
use script_text::Item;
use serve_host::Trace;
use std::{io, rt};
use vm_outside::Failed;
use vm_types::{ActorId, Entry};

/// Writes each item as a line of a script, and hands it to the system before anything that it shows is shown (`TraceLines`).
/// Opening it takes the place of a file that was there. Before that nothing is kept. An item that there is no memory for is
/// a failure, and so is one that would take a regular file past the process's limit on sizes. Where the system doesn't take a
/// line, the lines of events that were held back before it are lost with it. A new file is its owner's alone. Where it was not
/// opened it drops what it takes.
#[derive(Drop)]
pub struct TraceFile<'a, R: rt::Files> {
    rt: &'a R,
    lines: Option<TraceLines<LimitedFile<R::File>>>,
    faults: u64,
}

impl<'a, R: rt::Files + AllocGlobal> TraceFile<'a, R> {
    pub fn new(rt: &'a R) -> TraceFile<'a, R>
        ensures { (⟦<TraceFile<'a, R> as Trace>⟧.known result).health.faults ≡ 0 }
    {
        TraceFile {
            rt,
            lines: None,
            faults: 0,
        }
    }

    /// How many calls have failed. It stays at its last value.
    pub fn faults(&self) -> u64
        ensures { result ≡ (⟦<TraceFile<'a, R> as Trace>⟧.known self.now).health.faults }
    {
        self.faults
    }
}

impl<'a, R: rt::Files + AllocGlobal> Trace for TraceFile<'a, R> {
    ghost use Rattle.std.specs.Prelude.{[], None};
    ghost use Rattle.outside_real.specs.Counting.{untold};

    ghost known = { λ t. record { health = untold t.faults; path = None; took = []; kept = [] } };

    /// The trace before it, if there is one, is finished first.
    fn open(&mut self, path: &str) -> Result<(), Failed> {
        self.finish()?;
        let file = counted(&mut self.faults, create(self.rt, path))?;
        self.lines = Some(TraceLines::new(self.rt.alloc(), file));
        Ok(())
    }

    fn add(&mut self, item: &Item) -> Result<(), Failed> {
        let Some(lines) = &mut self.lines else {
            return Ok(());
        };
        counted(&mut self.faults, lines.add(self.rt.alloc(), item))
    }

    fn add_steps(&mut self, actor: ActorId, count: u64) -> Result<(), Failed> {
        let Some(lines) = &mut self.lines else {
            return Ok(());
        };
        counted(
            &mut self.faults,
            lines.add_steps(self.rt.alloc(), actor, count),
        )
    }

    /// Where it was not opened, no item is made.
    fn add_events(&mut self, events: &[Entry]) -> Result<(), Failed> {
        let Some(lines) = &mut self.lines else {
            return Ok(());
        };
        counted(&mut self.faults, lines.add_events(self.rt.alloc(), events))
    }

    fn finish(&mut self) -> Result<(), Failed> {
        let Some(lines) = &mut self.lines else {
            return Ok(());
        };
        counted(&mut self.faults, lines.finish())
    }
}

fn create<R: rt::Files>(rt: &R, path: &str) -> io::Result<LimitedFile<R::File>> {
    LimitedFile::new(create_private(rt, path)?)
}
