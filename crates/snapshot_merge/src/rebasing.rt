// A diff is merged into its base.
ghost use Rattle.std.specs.Prelude.{◌≡◌, IsTrue, List, ℕ, Some, Ok, Err, length, OnErr, OnOk};
ghost use Rattle.std.specs.FinMap.{get};
ghost use Rattle.file_format.specs.Identities.{identity};
ghost use Rattle.gate_file.specs.Runs.{RunsAll, RunsPart};
ghost use Rattle.refusals.specs.declared.refusal.Refusal.TheVariants as refusal;
ghost use Rattle.snapshot_merge.specs.Answering.{AreThere, IsStartIn};
ghost use Rattle.gate_file.specs.Stages.{calls_of, text_after};
ghost use Rattle.snapshot_merge.specs.Calls.{stages};
ghost use Rattle.snapshot_merge.specs.Plans.{Plan, both_in, merged_by, planned_in};
ghost use Rattle.snapshot_merge.specs.Rebasing.{RebaseCause, Rebases};
ghost use Rattle.gate_file.specs.Stages.{LeftMeanwhile};
ghost use Rattle.snap_diff.specs.Copies.{DiffCopy, MemoryCopy};
ghost use Rattle.snap_diff.specs.Diffs.{is_table};
ghost use Rattle.snapshot_merge.specs.Stops.{IsMerged, StandsOn, WasBegun};
ghost use Rattle.vm_outside.specs.Crashes.{Disk};
ghost use Rattle.vm_outside.specs.Known.{Called, Lasts, Tells};

use crate::error::RebaseError;
use crate::finding::{DiffStart, find};
use crate::merge::{Merge, merge_of, was_merged};
use crate::room::Room;
use crate::stages::{begin, fill, mark};
use refusals::Refusal;
use std::alloc::Global;
use vm_outside::{Failed, Files};

/// Merges the diff under the second name into the memory file under the first, which then holds the copy that the diff
/// makes of it. A merge of the two that was cut off is gone on with.
///
/// Errors: `Refused` by the first that fits: of the base no such file, its gate, its magic, a field, its size; then of
/// the diff no such file, its gate, its magic, a field; then another number of pages, another merge that is unfinished,
/// a parent that isn't the base's identity, and no slot that is left. `Fault` where a call on the files failed: the
/// calls up to it were done, and a later call goes on. Nothing is written with `Refused` or `OutOfMemory`. A base into which
/// the diff was merged before is synced before it is refused for the parent.
///
/// A stop at any moment, inside a call too, leaves the old copy or a base that is refused 26, and then the merge can be run
/// again; or the new copy, and then the diff is refused 27. This is so however often the merge was stopped before, by power
/// cuts, killed processes or failed calls. Once it is answered with `Ok`, or with 27 for a merge that was begun, each stop
/// leaves the new copy.
pub fn rebase<F: Files>(
    alloc: Global,
    files: &mut F,
    base: &str,
    diff: &str,
) -> Result<(), RebaseError>
    ensures rebased { Tells (F.known files.old).health →
        Rebases base.now diff.now result (F.known files.old) (F.known files.new) }
    ensures cause { RebaseCause result (F.known files.old).health.faults (F.known files.new).health.faults }
    ensures lasts { Lasts (F.known files.old).health (F.known files.new).health }
    ensures crash { Tells (F.known files.old).health → (file : List ℕ) (m : MemoryCopy) (d : DiffCopy) (disk : Disk) →
        WasBegun base.now diff.now m d file (F.known files.old).calls →
        LeftMeanwhile (F.known files.old).calls (F.known files.new).calls disk →
        StandsOn base.now diff.now m d file disk }
    ensures lasting { OnOk result (Tells (F.known files.old).health → (file : List ℕ) (m : MemoryCopy) (d : DiffCopy) →
        WasBegun base.now diff.now m d file (F.known files.old).calls →
        IsMerged base.now diff.now m d file (F.known files.new)) }
    ensures settled { result ≡ Err (RebaseError.Refused refusal.ParentDiffers) → Tells (F.known files.old).health →
        (file : List ℕ) (m : MemoryCopy) (d : DiffCopy) →
        WasBegun base.now diff.now m d file (F.known files.old).calls →
        IsMerged base.now diff.now m d file (F.known files.new) }
    ensures begun { Tells (F.known files.old).health → (file : List ℕ) (m : MemoryCopy) (d : DiffCopy) →
        WasBegun base.now diff.now m d file (F.known files.old).calls →
        WasBegun base.now diff.now m d file (F.known files.new).calls }
{
    rebase_files(alloc, files, base, diff)
}

// What both files are found as, and what is to be done by that.
fn rebase_files<F: Files>(
    alloc: Global,
    files: &mut F,
    base: &str,
    diff: &str,
) -> Result<(), RebaseError>
    ensures rebased { Tells (F.known files.old).health →
        Rebases base.now diff.now result (F.known files.old) (F.known files.new) }
    ensures cause { RebaseCause result (F.known files.old).health.faults (F.known files.new).health.faults }
    ensures lasts { Lasts (F.known files.old).health (F.known files.new).health }
{
    let pair = match find(alloc, files, base, diff) {
        Ok(pair) => pair,
        Err(why) => return Err(why),
    };
    match merge_of(&pair.base, &pair.diff.header.names) {
        Ok(rest) => run(alloc, files, base, diff, rest, &pair.diff),
        Err(why) => refuse(
            files,
            base,
            why,
            was_merged(&pair.base, &pair.diff.header.names),
        ),
    }
}

// The refusal. A base into which the diff was merged before is synced first.
fn refuse<F: Files>(files: &mut F, base: &str, why: Refusal, again: bool) -> Result<(), RebaseError>
    ensures refused { Tells (F.known files.old).health → (diff : List ℕ) →
        planned_in (F.known files.old).saved base.now diff ≡ Err why →
        merged_by (both_in (F.known files.old).saved base.now diff) ≡ again →
        Rebases base.now diff result (F.known files.old) (F.known files.new) }
    ensures cause { RebaseCause result (F.known files.old).health.faults (F.known files.new).health.faults }
    ensures lasts { Lasts (F.known files.old).health (F.known files.new).health }
{
    if again {
        match files.sync(base) {
            Ok(()) => Err(RebaseError::Refused(why)),
            Err(Failed) => Err(RebaseError::Fault),
        }
    } else {
        Err(RebaseError::Refused(why))
    }
}

// What is left of the merge, where there is memory for it.
fn run<F: Files>(
    alloc: Global,
    files: &mut F,
    base: &str,
    diff: &str,
    rest: Merge,
    start: &DiffStart,
) -> Result<(), RebaseError>
    requires table { IsTrue (is_table start.now.header start.now.runs) }
    ensures rebased { Tells (F.known files.old).health → (plan : Plan) →
        planned_in (F.known files.old).saved base.now diff.now ≡ Ok plan → rest ≡ plan.merge →
        IsStartIn (get (F.known files.old).saved diff.now) start.now plan.diff →
        Rebases base.now diff.now result (F.known files.old) (F.known files.new) }
    ensures cause { RebaseCause result (F.known files.old).health.faults (F.known files.new).health.faults }
    ensures lasts { Lasts (F.known files.old).health (F.known files.new).health }
{
    let Ok(mut room) = Room::new(alloc, start.header.names.identity) else {
        return Err(RebaseError::OutOfMemory);
    };
    match merge(files, base, diff, rest, start, &mut room) {
        Ok(()) => Ok(()),
        Err(Failed) => Err(RebaseError::Fault),
    }
}

// The calls in their order.
fn merge<F: Files>(
    files: &mut F,
    base: &str,
    diff: &str,
    rest: Merge,
    start: &DiffStart,
    room: &mut Room,
) -> Result<(), Failed>
    requires name { room.old.name.items ≡ identity.bytes start.now.header.names.identity }
    requires room { length room.old.page.items ≡ 4096 }
    requires table { IsTrue (is_table start.now.header start.now.runs) }
    ensures done { OnOk result (Tells (F.known files.old).health → (plan : Plan) (text : List ℕ) →
        get (F.known files.old).saved base.now ≡ Some text → rest ≡ plan.merge →
        AreThere base.now diff.now start.now plan.diff (F.known files.old).saved →
        RunsAll base.now (calls_of base.now (stages plan.merge plan.diff) text)
        (text_after (stages plan.merge plan.diff) text) (F.known files.old) (F.known files.new)) }
    ensures begun { OnErr result (Tells (F.known files.old).health → (plan : Plan) (text : List ℕ) →
        get (F.known files.old).saved base.now ≡ Some text → rest ≡ plan.merge →
        AreThere base.now diff.now start.now plan.diff (F.known files.old).saved →
        RunsPart base.now (calls_of base.now (stages plan.merge plan.diff) text)
        (F.known files.old) (F.known files.new)) }
    ensures called { Called (F.known files.old).health (F.known files.new).health result }
{
    files.sync(base)?;
    match rest {
        Merge::Begin { slot } => {
            begin(files, base, slot, &room.name)?;
            fill(files, base, diff, slot, start, &mut room.page)
        }
        Merge::GoOn { slot } => fill(files, base, diff, slot, start, &mut room.page),
        Merge::Finish => mark(files, base, 0),
    }
}
