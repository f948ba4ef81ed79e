// A script replayed over files.
ghost use Rattle.std.specs.Prelude.{◌≡◌, [], IfOk, List, Some, map};
ghost use Rattle.script_text.specs.declared.item.Item.{Item};
ghost use Rattle.script_text.specs.Lines.{judged};
ghost use Rattle.command_line.specs.MachineId.{default_id};
ghost use Rattle.vm_outside.specs.Known.{FilesKnown, Lasts, Tells};
ghost use Rattle.flat_machine.specs.Machine.{Machine, new_machine};
ghost use Rattle.monitor_core.specs.State.{IsMonitor};
ghost use Rattle.load_run.specs.Failures.{IsShortage};
ghost use Rattle.load_run.specs.Restoring.{IsDone};

use crate::failures::tells_failure;
use crate::no_line::NoLine;
use command_line::DEFAULT_ID;
use monitor_cli::{ScriptRun, run_script};
use monitor_core::Monitor;
use outside_mem::{Failing, MemorySink, SteadySource};
use std::alloc::{AllocError, Global};
use vm_outside::Files;
use vm_types::{ByteList, Exit, Object, TextList};

// Replays the script, each of whose lines is an item, on a machine that has not started, and answers the monitor as the
// script leaves it. An answer of 500 or 503 tells that a call on the files failed, or that there was no memory.
pub fn replay<F: Files>(alloc: Global, script: ByteList, files: &mut F) -> Result<Monitor, NoLine>
    requires tells { Tells (F.known files.old).health }
    requires lines { (items : List Item) × (judged script ≡ map (λ it. Some it) items) }
    ensures done { IfOk result (λ monitor. (last : Machine)
        × IsDone script (new_machine default_id (F.known files.old).saved (F.known files.old).calls) last
        × IsMonitor monitor (F.known files.new) last) }
    ensures lasts { Lasts (F.known files.old).health (F.known files.new).health }
{
    let Ok(mut run) = new_run(alloc) else {
        return Err(NoLine);
    };
    let mut source = SteadySource::new(script.into_vec(), usize::MAX);
    let mut answers = MemorySink::new(alloc, usize::MAX, Failing::new(Vec::new(alloc)));
    if let Err(exit) = run_script(&mut run, &mut source, files, &mut answers) {
        return Err(shortage(exit));
    }
    if tells_failure(answers.taken()) {
        return Err(NoLine);
    }
    let ScriptRun { monitor, .. } = run;
    Ok(monitor)
}

// A machine that has not started, and no line.
fn new_run(alloc: Global) -> Result<ScriptRun, AllocError>
    ensures reader { IfOk result (λ run. run.reader ≡ []) }
    ensures line { IfOk result (λ run. run.line ≡ 1) }
    ensures monitor { IfOk result (λ run. (known : FilesKnown) →
        IsMonitor run.monitor known (new_machine default_id known.saved known.calls)) }
{
    let id = TextList::copy_of(alloc, DEFAULT_ID)?;
    let run = ScriptRun::new(alloc, id)?;
    Ok(run)
}

// A replay that ended early, from a source that never fails and to a sink in memory.
fn shortage(exit: Exit) -> NoLine
    requires { IsShortage exit }
{
    match exit {
        Exit::OutOfMemory => NoLine,
        Exit::Fault(Object::Files) => NoLine,
        Exit::Fault(Object::Sink) => NoLine,
        _ => unreachable!(),
    }
}
