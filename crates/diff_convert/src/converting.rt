// A diff is written anew.
ghost use Rattle.std.specs.Prelude.{◌≡◌, ◌⊎◌, ◌≤◌, ◌*◌, ◌^◌, ◌<◌, ◌∷◌, ◌++◌, true, List, ℕ, Ok, Some, IfOk, OnErr, OnOk, length, take, drop};
ghost use Rattle.std.specs.FinMap.{get};
ghost use Rattle.std.specs.Str.{bytes_eq};
ghost use Rattle.gate_file.specs.Moments.{AsBefore, IsShut};
ghost use Rattle.gate_file.specs.Reading.{FileCause};
ghost use Rattle.gate_file.specs.Runs.{RunsAll, RunsPart};
ghost use Rattle.gate_file.specs.Stages.{LeftMeanwhile};
ghost use Rattle.guest_pages.specs.Pages.{flat_of};
ghost use Rattle.snap_diff.specs.Copies.{DiffCopy};
ghost use Rattle.snap_diff.specs.Diffs.{are_stored, copy_of};
ghost use Rattle.snap_writer.specs.Saving.{saving_calls};
ghost use Rattle.snap_writer.specs.Selected.{can_select, selected};
ghost use Rattle.snapshot_merge.specs.Answering.{IsWhole};
ghost use Rattle.snapshot_merge.specs.Rebasing.{RebaseCause};
ghost use Rattle.diff_convert.specs.Converting.{Leaves, file_of, found_in};
ghost use Rattle.diff_convert.specs.Planning.{numbers_in, parts_here};
ghost use Rattle.vm_outside.specs.Crashes.{Disk};
ghost use Rattle.vm_outside.specs.Filing.{SameFiles};
ghost use Rattle.vm_outside.specs.Known.{Called, Lasts, Tells};

use crate::planning::{Plan, plan_of};
use gate_file::FileError;
use guest_pages::PageSet;
use refusals::Refusal;
use snap_diff::DiffHeader;
use snap_restore::load_pages;
use snap_writer::{Room, SavedPages, save};
use snapshot_merge::{DiffStart, RebaseError, find_diff};
use std::alloc::Global;
use vm_outside::{Failed, Files};

/// Writes the diff under the first name to the second, in the version that a create writes. All of it is read and judged
/// before the second file is made.
///
/// Errors: `Refused` by the first that fits: the names are equal; then of the diff no such file, its gate, its magic, a field.
/// `Fault` where a call on the files failed: the calls up to it were done. Nothing is written with `Refused` or `OutOfMemory`.
///
/// A stop at any moment, inside a call too, leaves the second file as it was, or absent, or refused for its gate, or whole.
pub fn convert<F: Files>(
    alloc: Global,
    files: &mut F,
    from: &str,
    to: &str,
) -> Result<(), RebaseError>
    ensures leaves { Tells (F.known files.old).health →
        Leaves from.now to.now result (F.known files.old) (F.known files.new) }
    ensures cause { RebaseCause result (F.known files.old).health.faults (F.known files.new).health.faults }
    ensures lasts { Lasts (F.known files.old).health (F.known files.new).health }
    ensures crash { Tells (F.known files.old).health → (disk : Disk) →
        LeftMeanwhile (F.known files.old).calls (F.known files.new).calls disk →
        AsBefore (F.known files.old).calls to.now disk ⊎ IsShut 64 (disk to.now)
        ⊎ ((d : DiffCopy) × (found_in (F.known files.old).saved from.now to.now ≡ Ok d)
        × (disk to.now ≡ Some (file_of d))) }
{
    convert_file(alloc, files, from, to)
}

fn convert_file<F: Files>(
    alloc: Global,
    files: &mut F,
    from: &str,
    to: &str,
) -> Result<(), RebaseError>
    ensures leaves { Tells (F.known files.old).health →
        Leaves from.now to.now result (F.known files.old) (F.known files.new) }
    ensures cause { RebaseCause result (F.known files.old).health.faults (F.known files.new).health.faults }
    ensures lasts { Lasts (F.known files.old).health (F.known files.new).health }
{
    if are_same(from, to) {
        return Err(RebaseError::Refused(Refusal::OutOfRange));
    }
    let start = match find_diff(alloc, files, from) {
        Ok(start) => start,
        Err(why) => return Err(why),
    };
    let at = DiffHeader::SIZE as u64 + start.header.table_size();
    match pages_of(alloc, files, from, at, start.header.stored) {
        Ok(pages) => write_found(alloc, files, to, &start, &pages),
        Err(FileError::Fault) => Err(RebaseError::Fault),
        Err(FileError::OutOfMemory) => Err(RebaseError::OutOfMemory),
    }
}

fn are_same(from: &str, to: &str) -> bool
    ensures { result ≡ bytes_eq from.now to.now }
{
    from == to
}

// The pages that a diff stores, from this offset of its file on.
fn pages_of<F: Files>(
    alloc: Global,
    files: &mut F,
    name: &str,
    at: u64,
    count: u32,
) -> Result<PageSet, FileError>
    requires { at ≤ 2 ^ 63 }
    ensures bytes { IfOk result (λ pages. Tells (F.known files.old).health → (given : List ℕ) →
        get (F.known files.old).saved name.now ≡ Some given →
        (flat_of pages.pages).bytes ≡ take (4096 * count) (drop at given)) }
    ensures count { IfOk result (λ pages. length pages.pages ≡ count) }
    ensures few { IfOk result (λ pages. length pages.pages < 2 ^ 32) }
    ensures same { Tells (F.known files.old).health → SameFiles (F.known files.old) (F.known files.new) }
    ensures cause { FileCause result (F.known files.old).health.faults (F.known files.new).health.faults }
    ensures lasts { Lasts (F.known files.old).health (F.known files.new).health }
{
    match load_pages(alloc, files, name, at, count) {
        Ok(pages) => Ok(pages),
        Err(why) => Err(why),
    }
}

// What was found is written, where there is memory for it.
fn write_found<F: Files>(
    alloc: Global,
    files: &mut F,
    to: &str,
    start: &DiffStart,
    pages: &PageSet,
) -> Result<(), RebaseError>
    requires whole { IsWhole start.now.header start.now.runs }
    requires pages { length pages.now.pages ≡ start.now.header.stored }
    requires few { length pages.now.pages < 2 ^ 32 }
    ensures leaves { Tells (F.known files.old).health → (from : List ℕ) (d : DiffCopy) →
        found_in (F.known files.old).saved from to.now ≡ Ok d →
        are_stored start.now.header.version start.now.header.stored (flat_of pages.now.pages).bytes ≡ true →
        d ≡ copy_of (parts_here start.now.header start.now.runs (flat_of pages.now.pages).bytes) →
        Leaves from to.now result (F.known files.old) (F.known files.new) }
    ensures cause { RebaseCause result (F.known files.old).health.faults (F.known files.new).health.faults }
    ensures lasts { Lasts (F.known files.old).health (F.known files.new).health }
{
    let Ok(plan) = plan_of(alloc, start, pages) else {
        return Err(RebaseError::OutOfMemory);
    };
    let Ok(mut room) = Room::new(alloc) else {
        return Err(RebaseError::OutOfMemory);
    };
    match write(files, to, &plan, pages, &mut room) {
        Ok(()) => Ok(()),
        Err(Failed) => Err(RebaseError::Fault),
    }
}

// The pages that are written.
fn saved_of<'a>(plan: &'a Plan, pages: &'a PageSet) -> SavedPages<'a>
    requires few { length pages.now.pages < 2 ^ 32 }
    requires there { can_select (numbers_in plan.now.numbers) (length pages.now.pages) ≡ true }
    ensures { result ≡ selected (numbers_in plan.now.numbers) (flat_of pages.now.pages).bytes }
{
    match &plan.numbers {
        None => SavedPages::all(pages),
        Some(numbers) => match SavedPages::some(pages, numbers) {
            Some(saved) => saved,
            None => unreachable!(),
        },
    }
}

// The calls in their order.
fn write<F: Files>(
    files: &mut F,
    to: &str,
    plan: &Plan,
    pages: &PageSet,
    room: &mut Room,
) -> Result<(), Failed>
    requires few { length pages.now.pages < 2 ^ 32 }
    requires there { can_select (numbers_in plan.now.numbers) (length pages.now.pages) ≡ true }
    ensures done { OnOk result (Tells (F.known files.old).health → (bytes : List ℕ) →
        selected (numbers_in plan.now.numbers) (flat_of pages.now.pages).bytes ≡ bytes →
        RunsAll to.now (saving_calls to.now plan.now.head.items bytes) (1 ∷ plan.now.head.items ++ bytes)
        (F.known files.old) (F.known files.new)) }
    ensures begun { OnErr result (Tells (F.known files.old).health → (bytes : List ℕ) →
        selected (numbers_in plan.now.numbers) (flat_of pages.now.pages).bytes ≡ bytes →
        RunsPart to.now (saving_calls to.now plan.now.head.items bytes) (F.known files.old) (F.known files.new)) }
    ensures called { Called (F.known files.old).health (F.known files.new).health result }
{
    let saved = saved_of(plan, pages);
    save(files, to, &plan.head, &saved, room)?;
    Ok(())
}
