// The command.
ghost use Rattle.std.specs.Prelude.{◌≡◌, ◌≢◌, ◌⊎◌, List, None, Ok, Some, map, string_bytes, ℕ};
ghost use Rattle.refusals.specs.declared.refusal.Refusal.TheVariants as refusal;
ghost use Rattle.diff_convert.specs.Converting.{file_of, found_in};
ghost use Rattle.gate_file.specs.Moments.{AsBefore, IsShut};
ghost use Rattle.gate_file.specs.Stages.{LeftMeanwhile};
ghost use Rattle.rebase_cli.specs.Command.{ConvertsBy, EndCause, EndsBy, TookLine};
ghost use Rattle.rebase_cli.specs.Ends.{last_line};
ghost use Rattle.rebase_cli.specs.Said.{conversion_said};
ghost use Rattle.rebase_cli.specs.Words.{Convert, Names, Rebase, edit_in};
ghost use Rattle.rebase_cli.specs.Words as named;
ghost use Rattle.snap_diff.specs.Copies.{DiffCopy, MemoryCopy};
ghost use Rattle.snapshot_merge.specs.Stops.{IsMerged, StandsOn, WasBegun};
ghost use Rattle.vm_outside.specs.Crashes.{Disk};
ghost use Rattle.vm_outside.specs.Known.{Called, Lasts, Tells};

use crate::end::End;
use crate::last_line::write_last;
use crate::words::{Conversion, Edit, Paths, edit_in};
use command_line::NoCommand;
use diff_convert::convert;
use snapshot_merge::{RebaseError, rebase};
use std::alloc::Global;
use vm_outside::{Files, Sink};

/// Merges the diff that the words name into the memory file that they name, or writes it anew to the file that they name, and
/// writes the last line of a run that didn't. The words are those behind the program's name.
///
/// `Usage`: the words are neither `edit-memory rebase --memory-path BASE --diff-path DIFF` nor `edit-memory convert --diff-path
/// IN --out-path OUT`, the two options in either order; nothing is read then, as where there is no memory to read them. `Refused`: by the first rule that fits. `FilesFailed`: a call on the files failed.
/// `OutOfMemory`: there was no memory. A sink that fails at the last line leaves the answer as it is.
///
/// A stop at any moment of a merge leaves a base that the same command goes on with, or that is merged; and behind `Done`, or a refusal
/// with 27 of a merge that was begun, the latter (`snapshot_merge::rebase`). One of a convert leaves its second file as it was, absent,
/// shut or whole (`diff_convert::convert`).
pub fn rebase_main<F: Files, S: Sink>(
    alloc: Global,
    words: &[String],
    files: &mut F,
    out: &mut S,
) -> End
    ensures usage { result ≡ End.Usage → edit_in (map string_bytes words.now) ≡ None }
    ensures refused { edit_in (map string_bytes words.now) ≡ None → (result ≡ End.Usage) ⊎ (result ≡ End.OutOfMemory) }
    ensures unread { edit_in (map string_bytes words.now) ≡ None → files.new ≡ files.old }
    ensures ends { Tells (F.known files.old).health → (names : Names) → edit_in (map string_bytes words.now) ≡ Some (Rebase names) →
        EndsBy result names (F.known files.old) (F.known files.new) }
    ensures converts { Tells (F.known files.old).health → (conversion : named.Conversion) →
        edit_in (map string_bytes words.now) ≡ Some (Convert conversion) →
        ConvertsBy result conversion (F.known files.old) (F.known files.new) }
    ensures cause { EndCause result (F.known files.old).health.faults (F.known files.new).health.faults }
    ensures lasts { Lasts (F.known files.old).health (F.known files.new).health }
    ensures told { Tells (S.known out.old).health →
        TookLine (last_line result) (S.known out.old) (S.known out.new) }
    ensures still { Lasts (S.known out.old).health (S.known out.new).health }
    ensures crash { Tells (F.known files.old).health → (names : Names) → edit_in (map string_bytes words.now) ≡ Some (Rebase names) →
        (file : List ℕ) (m : MemoryCopy) (d : DiffCopy) (disk : Disk) →
        WasBegun names.base names.diff m d file (F.known files.old).calls →
        LeftMeanwhile (F.known files.old).calls (F.known files.new).calls disk →
        StandsOn names.base names.diff m d file disk }
    ensures spares { Tells (F.known files.old).health → (conversion : named.Conversion) →
        edit_in (map string_bytes words.now) ≡ Some (Convert conversion) → (disk : Disk) →
        LeftMeanwhile (F.known files.old).calls (F.known files.new).calls disk →
        AsBefore (F.known files.old).calls conversion.to disk ⊎ IsShut 64 (disk conversion.to)
        ⊎ ((d : DiffCopy) × (found_in (F.known files.old).saved conversion.from conversion.to ≡ Ok d)
        × (disk conversion.to ≡ Some (file_of d))) }
    ensures lasting { (result ≡ End.Done) ⊎ (result ≡ End.Refused refusal.ParentDiffers) →
        Tells (F.known files.old).health → (names : Names) → edit_in (map string_bytes words.now) ≡ Some (Rebase names) →
        (file : List ℕ) (m : MemoryCopy) (d : DiffCopy) → WasBegun names.base names.diff m d file (F.known files.old).calls →
        IsMerged names.base names.diff m d file (F.known files.new) }
    ensures begun { Tells (F.known files.old).health → (names : Names) → edit_in (map string_bytes words.now) ≡ Some (Rebase names) →
        (file : List ℕ) (m : MemoryCopy) (d : DiffCopy) → WasBegun names.base names.diff m d file (F.known files.old).calls →
        WasBegun names.base names.diff m d file (F.known files.new).calls }
{
    let end = run(alloc, words, files);
    let _ = write_last(out, end);
    end
}

/// Ends so before a command is begun, and writes its last line.
pub fn refuse<S: Sink>(out: &mut S, end: End) -> End
    ensures ends { result ≡ end }
    ensures told { Tells (S.known out.old).health →
        TookLine (last_line end) (S.known out.old) (S.known out.new) }
    ensures still { Lasts (S.known out.old).health (S.known out.new).health }
{
    let _ = write_last(out, end);
    end
}

// All but the last line.
fn run<F: Files>(alloc: Global, words: &[String], files: &mut F) -> End
    ensures usage { result ≡ End.Usage → edit_in (map string_bytes words.now) ≡ None }
    ensures refused { edit_in (map string_bytes words.now) ≡ None → (result ≡ End.Usage) ⊎ (result ≡ End.OutOfMemory) }
    ensures unread { edit_in (map string_bytes words.now) ≡ None → files.new ≡ files.old }
    ensures ends { Tells (F.known files.old).health → (names : Names) → edit_in (map string_bytes words.now) ≡ Some (Rebase names) →
        EndsBy result names (F.known files.old) (F.known files.new) }
    ensures converts { Tells (F.known files.old).health → (conversion : named.Conversion) →
        edit_in (map string_bytes words.now) ≡ Some (Convert conversion) →
        ConvertsBy result conversion (F.known files.old) (F.known files.new) }
    ensures cause { EndCause result (F.known files.old).health.faults (F.known files.new).health.faults }
    ensures lasts { Lasts (F.known files.old).health (F.known files.new).health }
{
    match edit_in(alloc, words) {
        Ok(Edit::Rebase(paths)) => run_rebase(alloc, &paths, files),
        Ok(Edit::Convert(conversion)) => run_convert(alloc, &conversion, files),
        Err(NoCommand::Usage) => End::Usage,
        Err(NoCommand::OutOfMemory) => End::OutOfMemory,
    }
}

fn run_rebase<F: Files>(alloc: Global, paths: &Paths, files: &mut F) -> End
    ensures begun { result ≢ End.Usage }
    ensures ends { Tells (F.known files.old).health →
        EndsBy result (record { base = paths.now.base.now; diff = paths.now.diff.now })
        (F.known files.old) (F.known files.new) }
    ensures cause { EndCause result (F.known files.old).health.faults (F.known files.new).health.faults }
    ensures lasts { Lasts (F.known files.old).health (F.known files.new).health }
{
    match rebase(alloc, files, paths.base, paths.diff) {
        Ok(()) => End::Done,
        Err(RebaseError::Refused(why)) => End::Refused(why),
        Err(RebaseError::Fault) => End::FilesFailed,
        Err(RebaseError::OutOfMemory) => End::OutOfMemory,
    }
}

fn run_convert<F: Files>(alloc: Global, conversion: &Conversion, files: &mut F) -> End
    ensures begun { result ≢ End.Usage }
    ensures converts { Tells (F.known files.old).health →
        ConvertsBy result (conversion_said conversion.now) (F.known files.old) (F.known files.new) }
    ensures cause { EndCause result (F.known files.old).health.faults (F.known files.new).health.faults }
    ensures lasts { Lasts (F.known files.old).health (F.known files.new).health }
{
    match convert(alloc, files, conversion.from, conversion.to) {
        Ok(()) => End::Done,
        Err(RebaseError::Refused(why)) => End::Refused(why),
        Err(RebaseError::Fault) => End::FilesFailed,
        Err(RebaseError::OutOfMemory) => End::OutOfMemory,
    }
}
