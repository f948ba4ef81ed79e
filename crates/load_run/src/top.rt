// The command `run N`.
ghost use Rattle.std.specs.Prelude.{◌≡◌, ℕ, IfOk, List, None, Some, map, string_bytes};
ghost use Rattle.command_line.specs.Commands.{run_number};
ghost use Rattle.vm_outside.specs.Known.{Lasts};
ghost use Rattle.monitor_cli.specs.Command.{IsRefusal, Unbegun};
ghost use Rattle.monitor_cli.specs.Known.{all_known};
ghost use Rattle.load_run.specs.Running.{IsRun, Ran};

use crate::no_line::NoLine;
use crate::running::line_of_run;
use command_line::run_number;
use monitor_cli::{Outside, refuse, refuse_words};
use outside_mem::{Failing, MemoryFiles};
use std::alloc::{AllocError, Global};
use vm_outside::{Failed, Files, Sink, Source, write_all};
use vm_types::{ByteList, Exit, Object};

/// Replays the script of the number N over files in memory, merges its diffs in order, loads what is left into a second
/// machine, and writes the line that tells what both show to the sink.
///
/// `Usage`: the words are not `run N`, with an N from 0 to 4,294,967,295 in decimal digits without leading zeros; the last line
/// that says so is all that is written. `Fault` of the sink: it failed, and took a front of the line. `OutOfMemory`: there was no
/// memory; the last line that says so is all that is written.
pub fn run_main<I: Source, O: Sink, F: Files>(
    alloc: Global,
    words: &[String],
    out: &mut Outside<I, O, F>,
) -> Exit
    ensures ran { (number : ℕ) → run_number (map string_bytes words.now) ≡ Some number →
        Ran (map string_bytes words.now) result (O.known out.old.sink) (O.known out.new.sink) }
    ensures refused { run_number (map string_bytes words.now) ≡ None → IsRefusal result × Unbegun result
        (all_known (I.known out.old.source) (O.known out.old.sink) (F.known out.old.files))
        (all_known (I.known out.new.source) (O.known out.new.sink) (F.known out.new.files)) }
    ensures lasts { Lasts (O.known out.old.sink).health (O.known out.new.sink).health }
    ensures untouched { (out.new.source ≡ out.old.source) × (out.new.files ≡ out.old.files) }
{
    match run_number(alloc, words) {
        Ok(number) => run_by(alloc, number, out),
        Err(why) => refuse_words(why, out),
    }
}

/// The run of this number, which words of the command gave: its line, to the sink.
pub fn run_by<I: Source, O: Sink, F: Files>(
    alloc: Global,
    number: u32,
    out: &mut Outside<I, O, F>,
) -> Exit
    ensures ran { (words : List (List ℕ)) → run_number words ≡ Some number →
        Ran words result (O.known out.old.sink) (O.known out.new.sink) }
    ensures lasts { Lasts (O.known out.old.sink).health (O.known out.new.sink).health }
    ensures untouched { (out.new.source ≡ out.old.source) × (out.new.files ≡ out.old.files) }
{
    let Ok(line) = run_in_memory(alloc, number) else {
        return refuse(Exit::OutOfMemory, out);
    };
    match write_all(&mut out.sink, line.as_slice()) {
        Ok(()) => Exit::Done,
        Err(Failed) => Exit::Fault(Object::Sink),
    }
}

// The line of the run of this number. Files in memory that list no failure fail for want of memory alone.
fn run_in_memory(alloc: Global, number: u32) -> Result<ByteList, AllocError>
    ensures { IfOk result (λ line. IsRun number line) }
{
    let mut files = MemoryFiles::new(alloc, Failing::new(Vec::new(alloc)));
    match line_of_run(alloc, number, &mut files) {
        Ok(line) => Ok(line),
        Err(NoLine) => Err(AllocError),
    }
}
