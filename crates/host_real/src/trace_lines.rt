// The file of a trace, with lines that are held back.
ghost use Rattle.std.specs.Prelude.{◌≡◌, ◌≤◌, ◌<◌, ◌++◌, ◌∷◌, [], flat_map, length, max, IfOk, OnErr, OnOk};
ghost use Rattle.script_text.specs.Written.{line_of};
ghost use Rattle.serve_host.specs.Tracing.{steps_of};

use outside_real::tries;
use script_text::{Item, write_item};
use serve_host::event_item;
use std::alloc::{AllocError, Global};
use std::io;
use std::io::Write;
use vm_types::{ActorId, Entry};

/// So many bytes are held back at most before they are written.
const MOST_HELD: usize = 65_536;

/// So many lines of steps come there at once.
const LINES_AT_ONCE: u64 = 128;

/// Lines of events, which show nothing, are held back until one comes that shows something, or many are held. Where a
/// write fails all that was held is given up: the file may end in the middle of a line then, and none goes there twice.
///
/// What is held still when this is let go is written, and nobody hears whether that failed. `finish` tells.
pub struct TraceLines<W: Write + Drop> {
    file: W,
    held: Vec<u8>,
}

impl<W: Write + Drop> Drop for TraceLines<W> {
    fn drop(self) {
        let TraceLines { mut file, held } = self;
        let _written = tries::write_whole(&mut file, held.as_slice());
    }
}

impl<W: Write + Drop> TraceLines<W> {
    pub fn new(alloc: Global, file: W) -> TraceLines<W>
        ensures { result.held.items ≡ [] }
    {
        TraceLines {
            file,
            held: Vec::new(alloc),
        }
    }

    /// After an `Err` nothing of the item is held.
    pub fn add(&mut self, alloc: Global, item: &Item) -> io::Result<()>
        ensures { OnErr result (length self.new.held.items ≤ length self.old.held.items) }
    {
        let line = write_item(alloc, item)?;
        self.hold(line.as_slice())?;
        if is_event(item) {
            return Ok(());
        }
        self.finish()
    }

    /// The lines of so many items `step ACTOR 1`, which are held back or written as by `add`, some at once. After an `Err` the
    /// first of them may be held or written, or none.
    pub fn add_steps(&mut self, alloc: Global, actor: ActorId, count: u64) -> io::Result<()>
        ensures ok { OnOk result (length self.new.held.items < 65536) }
        ensures err { OnErr result (length self.new.held.items ≤ max (length self.old.held.items) 65535) }
    {
        let lines = step_lines(alloc, actor, LINES_AT_ONCE)?;
        for _taken in 0..count / LINES_AT_ONCE {
            self.hold(lines.as_slice())?;
        }
        let last = step_lines(alloc, actor, count % LINES_AT_ONCE)?;
        self.hold(last.as_slice())?;
        Ok(())
    }

    /// The lines of these events, one after another, as by `add`. After an `Err` the first of them may be held or written, or none.
    pub fn add_events(&mut self, alloc: Global, events: &[Entry]) -> io::Result<()> {
        for event in events {
            let item = event_item(alloc, event)?;
            self.add(alloc, &item)?;
        }
        Ok(())
    }

    // Holds lines of events back, or writes all that is held where it is much.
    fn hold(&mut self, lines: &[u8]) -> io::Result<()>
        ensures ok { OnOk result (length self.new.held.items < 65536) }
        ensures err { OnErr result (length self.new.held.items ≤ length self.old.held.items) }
    {
        self.held.extend_from_slice(lines)?;
        if self.held.len() < MOST_HELD {
            return Ok(());
        }
        self.finish()
    }

    /// Writes what is held. Nothing is then, also after an `Err`.
    pub fn finish(&mut self) -> io::Result<()>
        ensures { self.new.held.items ≡ [] }
    {
        let written = tries::write_whole(&mut self.file, self.held.as_slice());
        self.held.clear();
        written
    }
}

// So many lines of a step.
fn step_lines(alloc: Global, actor: ActorId, count: u64) -> Result<Vec<u8>, AllocError>
    ensures { IfOk result (λ lines. lines.items ≡ flat_map (λ step. line_of step ++ 10 ∷ []) (steps_of actor count)) }
{
    let line = write_item(alloc, &Item::Step { actor, count: 1 })?;
    let mut lines = Vec::new(alloc);
    for _made in 0..count {
        lines.extend_from_slice(line.as_slice())?;
    }
    Ok(lines)
}

fn is_event(item: &Item) -> bool {
    matches!(item, Item::Step { .. } | Item::Reply { .. })
}
