// The replay of a script, all but its last line.
ghost use Rattle.std.specs.Prelude.{◌≢◌};
ghost use Rattle.flat_machine.specs.Machine.{new_machine};
ghost use Rattle.monitor_cli.specs.Known.{AllLast, AllTell, CausedSoFar, all_known};
ghost use Rattle.monitor_cli.specs.Lines.{BeforeLast};

use crate::closing::write_closing;
use crate::lines::ScriptRun;
use crate::outside::Outside;
use crate::script::run_script;
use std::alloc::Global;
use vm_outside::{Files, Sink, Source};
use vm_types::{Exit, TextList};

/// Replays the script that the source has left, on a machine of this id: all but its last line.
pub fn replay<I: Source, O: Sink, F: Files>(
    alloc: Global,
    id: TextList,
    out: &mut Outside<I, O, F>,
) -> Exit
    ensures so_far { AllTell (all_known (I.known out.old.source) (O.known out.old.sink) (F.known out.old.files)) →
        BeforeLast result (new_machine id (F.known out.old.files).saved (F.known out.old.files).calls)
        (all_known (I.known out.old.source) (O.known out.old.sink) (F.known out.old.files))
        (I.known out.new.source).left (O.known out.new.sink) (F.known out.new.files) }
    ensures caused { CausedSoFar result
        (all_known (I.known out.old.source) (O.known out.old.sink) (F.known out.old.files))
        (all_known (I.known out.new.source) (O.known out.new.sink) (F.known out.new.files)) }
    ensures no_usage { result ≢ Exit.Usage }
    ensures lasts { AllLast (all_known (I.known out.old.source) (O.known out.old.sink) (F.known out.old.files))
        (all_known (I.known out.new.source) (O.known out.new.sink) (F.known out.new.files)) }
{
    let Ok(mut run) = ScriptRun::new(alloc, id) else {
        return Exit::OutOfMemory;
    };
    if let Err(exit) = run_script(&mut run, &mut out.source, &mut out.files, &mut out.sink) {
        return exit;
    }
    write_closing(alloc, &run.monitor, &mut out.sink)
}
