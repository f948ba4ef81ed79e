// The diffs of the rounds: their pages, and their merges into the memory file.
ghost use Rattle.std.specs.Prelude.{◌≡◌, ◌≤◌, IfOk, OnOk, string_bytes};
ghost use Rattle.std.specs.FinMap.{get};
ghost use Rattle.vm_outside.specs.Filing.{SameFiles};
ghost use Rattle.vm_outside.specs.Known.{Lasts, Tells};
ghost use Rattle.snap_diff.specs.Found.{diff_found};
ghost use Rattle.load_run.specs.Merging.{diff_name, merged, pages_by, pages_in, with_diff};

use crate::no_line::NoLine;
use snapshot_merge::{RebaseError, diff_pages, rebase};
use std::alloc::{AllocError, Global};
use vm_outside::Files;

// How many pages the diffs of the first so many rounds have.
pub fn pages_in<F: Files>(alloc: Global, rounds: u32, files: &mut F) -> Result<u64, NoLine>
    requires { rounds ≤ 64 }
    ensures pages { IfOk result (λ pages. Tells (F.known files.old).health →
        pages ≡ pages_in rounds (F.known files.old).saved) }
    ensures same { Tells (F.known files.old).health → SameFiles (F.known files.old) (F.known files.new) }
    ensures lasts { Lasts (F.known files.old).health (F.known files.new).health }
{
    let mut pages = 0;
    let mut before = 0;
    while before < rounds {
        pages += pages_of(alloc, before + 1, files)? as u64;
        before += 1;
    }
    Ok(pages)
}

// How many pages the diff of this round has: what is no diff has none.
fn pages_of<F: Files>(alloc: Global, round: u32, files: &mut F) -> Result<u32, NoLine>
    ensures pages { IfOk result (λ pages. Tells (F.known files.old).health →
        pages ≡ pages_by (diff_found (get (F.known files.old).saved (diff_name round)))) }
    ensures same { Tells (F.known files.old).health → SameFiles (F.known files.old) (F.known files.new) }
    ensures lasts { Lasts (F.known files.old).health (F.known files.new).health }
{
    let name = diff_name(alloc, round)?;
    match diff_pages(alloc, files, name.as_str()) {
        Ok(pages) => Ok(pages),
        Err(RebaseError::Refused(_)) => Ok(0),
        Err(RebaseError::Fault) => Err(NoLine),
        Err(RebaseError::OutOfMemory) => Err(NoLine),
    }
}

// Merges the diffs of the first so many rounds into the memory file, in order.
pub fn merge_rounds<F: Files>(alloc: Global, rounds: u32, files: &mut F) -> Result<(), NoLine>
    ensures merged { OnOk result (Tells (F.known files.old).health →
        (F.known files.new).saved ≡ merged rounds (F.known files.old).saved) }
    ensures lasts { Lasts (F.known files.old).health (F.known files.new).health }
{
    let mut before = 0;
    while before < rounds {
        merge_round(alloc, before + 1, files)?;
        before += 1;
    }
    Ok(())
}

// Merges the diff of this round into the memory file; one that is refused changes nothing.
fn merge_round<F: Files>(alloc: Global, round: u32, files: &mut F) -> Result<(), NoLine>
    ensures merged { OnOk result (Tells (F.known files.old).health →
        (F.known files.new).saved ≡ with_diff (diff_name round) (F.known files.old).saved) }
    ensures lasts { Lasts (F.known files.old).health (F.known files.new).health }
{
    let name = diff_name(alloc, round)?;
    match rebase(alloc, files, "m0", name.as_str()) {
        Ok(()) => Ok(()),
        Err(RebaseError::Refused(_)) => Ok(()),
        Err(RebaseError::Fault) => Err(NoLine),
        Err(RebaseError::OutOfMemory) => Err(NoLine),
    }
}

fn diff_name(alloc: Global, round: u32) -> Result<String, AllocError>
    ensures { IfOk result (λ name. string_bytes name ≡ diff_name round) }
{
    format!(in alloc; "d{round}")
}
