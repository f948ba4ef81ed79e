// The lines that a reader holds, run one after another.
ghost use Rattle.std.specs.Prelude.{◌<◌, ◌≤◌, ◌+◌, ◌^◌, ℕ, List, IfErr, IfOk, MatchResult, length};
ghost use Rattle.vm_outside.specs.Known.{Lasts, Tells};
ghost use Rattle.flat_machine.specs.Machine.{Machine};
ghost use Rattle.monitor_cli.specs.Known.{FilesCause, SinkCause};

use crate::items::run_item;
use monitor_core::Monitor;
use script_text::{LineReader, Next};
use std::alloc::{AllocError, Global};
use vm_outside::{Files, Sink};
use vm_types::{Exit, TextList};

/// Why no line is done any more.
#[derive(Clone, Copy, Drop)]
pub enum Paused {
    /// The guest is off.
    Off,
    /// No line is whole.
    Empty,
}

/// A reader and the monitor that runs its lines; `line` is the number of the next, counted from 1.
#[derive(Drop)]
pub struct ScriptRun {
    pub reader: LineReader,
    pub monitor: Monitor,
    pub line: u64,
}

impl ScriptRun {
    ghost use Rattle.std.specs.Prelude.{◌≡◌, []};
    ghost use Rattle.vm_outside.specs.Known.{FilesKnown};
    ghost use Rattle.flat_machine.specs.Machine.{new_machine};
    ghost use Rattle.monitor_core.specs.State.{IsMonitor};
    ghost use Rattle.monitor_cli.specs.Known.{Known};
    ghost use Rattle.monitor_cli.specs.Lines.{BeforeLast, IsLinesEnd, PausedBy, Reached};

    /// A machine of this id that has not started, and no line.
    pub fn new(alloc: Global, id: TextList) -> Result<ScriptRun, AllocError>
        ensures reader { IfOk result (λ run. run.reader ≡ []) }
        ensures line { IfOk result (λ run. run.line ≡ 1) }
        ensures monitor { IfOk result (λ run. (known : FilesKnown) →
            IsMonitor run.monitor known (new_machine id known.saved known.calls)) }
    {
        Ok(ScriptRun {
            reader: LineReader::new(alloc),
            monitor: Monitor::new(alloc, id)?,
            line: 1,
        })
    }

    /// Runs the lines that are whole, until the guest is off.
    ///
    /// Errors: `Script` at a line that is none; else as an item's.
    pub fn run_lines<F: Files, K: Sink>(
        &mut self,
        files: &mut F,
        sink: &mut K,
    ) -> Result<Paused, Exit>
        requires { self.old.line + length self.old.reader < 2 ^ 64 }
        ensures count { self.new.line + length self.new.reader ≤ self.old.line + length self.old.reader }
        ensures went { IfOk result (λ paused. Tells (F.known files.old).health → Tells (K.known sink.old).health →
            (start : Machine) (before : Known) (came rest : List ℕ) →
            Reached start before came rest self.old (K.known sink.old) (F.known files.old) →
            Reached start before came rest self.new (K.known sink.new) (F.known files.new)) }
        ensures paused { IfOk result (λ paused. PausedBy paused self.new.reader self.new.monitor) }
        ensures ended { IfErr result (λ exit. Tells (F.known files.old).health → Tells (K.known sink.old).health →
            (start : Machine) (before : Known) (came rest : List ℕ) →
            Reached start before came rest self.old (K.known sink.old) (F.known files.old) →
            BeforeLast exit start before rest (K.known sink.new) (F.known files.new)) }
        ensures some { IfErr result IsLinesEnd }
        ensures sink { MatchResult result (λ _. (K.known sink.new).health.faults ≡ (K.known sink.old).health.faults)
            (λ exit. SinkCause exit (K.known sink.old).health.faults (K.known sink.new).health.faults) }
        ensures files { IfErr result (λ exit.
            FilesCause exit (F.known files.old).health.faults (F.known files.new).health.faults) }
        ensures lasts { Lasts (F.known files.old).health (F.known files.new).health
            × Lasts (K.known sink.old).health (K.known sink.new).health }
    {
        'lines: loop {
            if self.monitor.is_off() {
                return Ok(Paused::Off);
            }
            let Ok(next) = self.reader.next() else {
                return Err(Exit::OutOfMemory);
            };
            match next {
                Next::Nothing => return Ok(Paused::Empty),
                Next::Bad => return Err(Exit::Script { line: self.line }),
                Next::Line(item) => {
                    if let Err(exit) = run_item(item, &mut self.monitor, files, sink) {
                        return Err(exit);
                    }
                }
            }
            self.line += 1;
        }
    }
}
