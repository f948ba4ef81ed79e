// The top call of a replay: its words, and what it does.
ghost use Rattle.std.specs.Prelude.{◌≡◌, ◌≢◌, ℕ, List, None, Some, map, string_bytes};
ghost use Rattle.command_line.specs.Commands.{replay_id};
ghost use Rattle.flat_machine.specs.Machine.{new_machine};
ghost use Rattle.monitor_cli.specs.Command.{Commanded, Unbegun, refusal_of};
ghost use Rattle.monitor_cli.specs.Known.{AllLast, AllTell, CausedSoFar, all_known};
ghost use Rattle.monitor_cli.specs.Lines.{BeforeLast};
ghost use Rattle.monitor_cli.specs.Taking.{IsQuiet};

use crate::last_line::write_last;
use crate::outside::Outside;
use crate::replaying::replay;
use command_line::{NoCommand, replay_id};
use std::alloc::Global;
use vm_outside::{Files, Sink, Source};
use vm_types::{Exit, TextList};

/// Ends so before a command is begun: the last line that says so is all that is written.
pub fn refuse<I: Source, O: Sink, F: Files>(exit: Exit, out: &mut Outside<I, O, F>) -> Exit
    ensures ends { result ≡ exit }
    ensures unbegun { (IsQuiet exit → ⊥) → Unbegun exit
        (all_known (I.known out.old.source) (O.known out.old.sink) (F.known out.old.files))
        (all_known (I.known out.new.source) (O.known out.new.sink) (F.known out.new.files)) }
    ensures unread { (out.new.source ≡ out.old.source) × (out.new.files ≡ out.old.files) }
    ensures lasts { AllLast
        (all_known (I.known out.old.source) (O.known out.old.sink) (F.known out.old.files))
        (all_known (I.known out.new.source) (O.known out.new.sink) (F.known out.new.files)) }
{
    let last = exit;
    let _ = write_last(&mut out.sink, last);
    exit
}

/// Ends where words are no command, or there was no memory to read them.
pub fn refuse_words<I: Source, O: Sink, F: Files>(
    why: NoCommand,
    out: &mut Outside<I, O, F>,
) -> Exit
    ensures ends { result ≡ refusal_of why }
    ensures unbegun { Unbegun result
        (all_known (I.known out.old.source) (O.known out.old.sink) (F.known out.old.files))
        (all_known (I.known out.new.source) (O.known out.new.sink) (F.known out.new.files)) }
    ensures command { (words : List (List ℕ)) → (why ≡ NoCommand.Usage → replay_id words ≡ None) → Commanded words result
        (all_known (I.known out.old.source) (O.known out.old.sink) (F.known out.old.files))
        (all_known (I.known out.new.source) (O.known out.new.sink) (F.known out.new.files)) }
    ensures unread { (out.new.source ≡ out.old.source) × (out.new.files ≡ out.old.files) }
    ensures lasts { AllLast
        (all_known (I.known out.old.source) (O.known out.old.sink) (F.known out.old.files))
        (all_known (I.known out.new.source) (O.known out.new.sink) (F.known out.new.files)) }
{
    let exit = match why {
        NoCommand::Usage => Exit::Usage,
        NoCommand::OutOfMemory => Exit::OutOfMemory,
    };
    refuse(exit, out)
}

/// Reads a script from the source, replays it over the files, and writes its output to the sink.
///
/// `Usage`: the words are not `replay` with at most the option `--id`; nothing is read then. `Script`: the line of that number is
/// the first that is no line of a script. `Fault`: a call on that object failed. `OutOfMemory`: there was no memory.
/// A sink that fails at the last line that tells one of these leaves the answer as it is; `. off` is no such line.
pub fn replay_main<I: Source, O: Sink, F: Files>(
    alloc: Global,
    words: &[String],
    out: &mut Outside<I, O, F>,
) -> Exit
    ensures command { Commanded (map string_bytes words.now) result
        (all_known (I.known out.old.source) (O.known out.old.sink) (F.known out.old.files))
        (all_known (I.known out.new.source) (O.known out.new.sink) (F.known out.new.files)) }
    ensures unread { result ≡ Exit.Usage → (out.new.source ≡ out.old.source) × (out.new.files ≡ out.old.files) }
{
    match replay_id(alloc, words) {
        Ok(id) => replay_by(alloc, id, out),
        Err(why) => refuse_words(why, out),
    }
}

/// The replay on a machine of this id, which words of a replay gave it.
pub fn replay_by<I: Source, O: Sink, F: Files>(
    alloc: Global,
    id: &str,
    out: &mut Outside<I, O, F>,
) -> Exit
    ensures command { (words : List (List ℕ)) → replay_id words ≡ Some id.now → Commanded words result
        (all_known (I.known out.old.source) (O.known out.old.sink) (F.known out.old.files))
        (all_known (I.known out.new.source) (O.known out.new.sink) (F.known out.new.files)) }
    ensures begun { result ≢ Exit.Usage }
{
    let exit = replay_as(alloc, id, out);
    let last = exit;
    let _ = write_last(&mut out.sink, last);
    exit
}

// The same, all but the last line.
fn replay_as<I: Source, O: Sink, F: Files>(
    alloc: Global,
    id: &str,
    out: &mut Outside<I, O, F>,
) -> Exit
    ensures so_far { AllTell (all_known (I.known out.old.source) (O.known out.old.sink) (F.known out.old.files)) →
        BeforeLast result (new_machine id.now (F.known out.old.files).saved (F.known out.old.files).calls)
        (all_known (I.known out.old.source) (O.known out.old.sink) (F.known out.old.files))
        (I.known out.new.source).left (O.known out.new.sink) (F.known out.new.files) }
    ensures caused { CausedSoFar result
        (all_known (I.known out.old.source) (O.known out.old.sink) (F.known out.old.files))
        (all_known (I.known out.new.source) (O.known out.new.sink) (F.known out.new.files)) }
    ensures no_usage { result ≢ Exit.Usage }
    ensures lasts { AllLast (all_known (I.known out.old.source) (O.known out.old.sink) (F.known out.old.files))
        (all_known (I.known out.new.source) (O.known out.new.sink) (F.known out.new.files)) }
{
    match TextList::copy_of(alloc, id) {
        Ok(id) => replay(alloc, id, out),
        Err(_) => Exit::OutOfMemory,
    }
}
