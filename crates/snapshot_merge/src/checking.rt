// The stored pages of a diff, before anything is written.
ghost use Rattle.std.specs.Prelude.{◌≡◌, ◌≤◌, ◌+◌, ◌^◌, IsTrue, List, ℕ, Some, IfOk, length, drop};
ghost use Rattle.std.specs.FinMap.{get};
ghost use Rattle.std.specs.List.{list_all};
ghost use Rattle.file_format.specs.declared.version.Version.TheVariants.{Two};
ghost use Rattle.snap_diff.specs.Diffs.{is_table};
ghost use Rattle.snap_diff.specs.Found.{diff_found};
ghost use Rattle.snap_diff.specs.Runs.{kinds_of};
ghost use Rattle.snapshot_merge.specs.Answering.{Answers, HasTable, IsStartOf};
ghost use Rattle.snapshot_merge.specs.Rebasing.{RebaseCause};
ghost use Rattle.vm_outside.specs.Filing.{SameFiles};
ghost use Rattle.vm_outside.specs.Known.{Called, Lasts, Tells};

use crate::error::RebaseError;
use crate::finding::DiffStart;
use file_format::Version;
use gate_file::zeros;
use guest_memory::PAGE_SIZE;
use refusals::Refusal;
use snap_diff::{DiffHeader, is_filled};
use std::alloc::Global;
use vm_outside::{Failed, Files};

/// A diff whose header and table these are. In version 2 no page that is stored is of zeros.
pub(crate) fn check_pages<F: Files>(
    alloc: Global,
    files: &mut F,
    name: &str,
    start: DiffStart,
) -> Result<DiffStart, RebaseError>
    requires table { IsTrue (is_table start.header start.runs) }
    ensures finds { Tells (F.known files.old).health → (given : List ℕ) →
        get (F.known files.old).saved name.now ≡ Some given → HasTable given start.header start.runs →
        Answers (IsStartOf given) result (diff_found (Some given)) }
    ensures table { IfOk result (λ found. IsTrue (is_table found.header found.runs)) }
    ensures kept { IfOk result (λ found. (found.header ≡ start.header) × (found.runs ≡ start.runs)) }
    ensures same { Tells (F.known files.old).health → SameFiles (F.known files.old) (F.known files.new) }
    ensures cause { RebaseCause result (F.known files.old).health.faults (F.known files.new).health.faults }
    ensures lasts { Lasts (F.known files.old).health (F.known files.new).health }
{
    match start.header.version {
        Version::One => Ok(start),
        Version::Two => check_filled(alloc, files, name, start),
    }
}

fn check_filled<F: Files>(
    alloc: Global,
    files: &mut F,
    name: &str,
    start: DiffStart,
) -> Result<DiffStart, RebaseError>
    requires version { start.header.version ≡ Two }
    requires table { IsTrue (is_table start.header start.runs) }
    ensures finds { Tells (F.known files.old).health → (given : List ℕ) →
        get (F.known files.old).saved name.now ≡ Some given → HasTable given start.header start.runs →
        Answers (IsStartOf given) result (diff_found (Some given)) }
    ensures table { IfOk result (λ found. IsTrue (is_table found.header found.runs)) }
    ensures kept { IfOk result (λ found. (found.header ≡ start.header) × (found.runs ≡ start.runs)) }
    ensures same { Tells (F.known files.old).health → SameFiles (F.known files.old) (F.known files.new) }
    ensures cause { RebaseCause result (F.known files.old).health.faults (F.known files.new).health.faults }
    ensures lasts { Lasts (F.known files.old).health (F.known files.new).health }
{
    let Ok(mut page) = zeros(alloc, PAGE_SIZE) else {
        return Err(RebaseError::OutOfMemory);
    };
    let at = DiffHeader::SIZE as u64 + start.header.table_size();
    match are_filled(files, name, at, start.header.stored, &mut page) {
        Ok(true) => Ok(start),
        Ok(false) => Err(RebaseError::Refused(Refusal::BadField)),
        Err(Failed) => Err(RebaseError::Fault),
    }
}

// Whether none of so many pages of a file, from this offset on, is of zeros. `page` is where they are read.
fn are_filled<F: Files>(
    files: &mut F,
    name: &str,
    at: u64,
    count: u32,
    page: &mut [u8],
) -> Result<bool, Failed>
    requires early { at ≤ 2 ^ 62 }
    requires room { length page.old ≡ 4096 }
    ensures filled { IfOk result (λ all. Tells (F.known files.old).health → (given : List ℕ) →
        get (F.known files.old).saved name.now ≡ Some given →
        all ≡ list_all (λ kind. kind) (kinds_of count (drop at given))) }
    ensures same { Tells (F.known files.old).health → SameFiles (F.known files.old) (F.known files.new) }
    ensures called { Called (F.known files.old).health (F.known files.new).health result }
{
    for i in 0..count {
        files.read_at(name, at + PAGE_SIZE as u64 * i as u64, page)?;
        if is_filled(page) {
            continue;
        }
        return Ok(false);
    }
    Ok(true)
}
