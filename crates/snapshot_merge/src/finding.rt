// What is found under the names of both files.
ghost use Rattle.std.specs.Prelude.{◌≡◌, ◌+◌, IsTrue, List, ℕ, Some, IfOk, length, take};
ghost use Rattle.std.specs.FinMap.{get};
ghost use Rattle.snap_diff.specs.Diffs.{Begins, is_table, size_behind};
ghost use Rattle.snap_diff.specs.Found.{diff_found};
ghost use Rattle.snapshot_merge.specs.Answering.{Answers, AreRunsOf, HasPages, IsHeader, IsPairIn, IsStartIn, IsStartOf, IsWhole, Same, TableJudged};
ghost use Rattle.snapshot_merge.specs.Bases.{base_found};
ghost use Rattle.snapshot_merge.specs.Plans.{both_in};
ghost use Rattle.snapshot_merge.specs.Rebasing.{RebaseCause};
ghost use Rattle.vm_outside.specs.Filing.{SameFiles};
ghost use Rattle.vm_outside.specs.Known.{Lasts, Tells};

use crate::checking::check_pages;
use crate::error::RebaseError;
use crate::judging::{failed_by, judge_base, judge_diff, judge_table};
use file_format::Items;
use gate_file::{read_front, read_start};
use refusals::Refusal;
use snap_diff::{DiffHeader, Run, count_pages};
use snap_memory::MemHeader;
use std::alloc::Global;
use vm_outside::Files;

/// A diff's file before its pages.
#[derive(Drop)]
pub struct DiffStart {
    pub header: DiffHeader,
    pub runs: Items<Run>,
}

/// A base, and a diff of the same number of pages or of another.
#[derive(Drop)]
pub struct Pair {
    pub base: MemHeader,
    pub diff: DiffStart,
}

// The header of a base.
fn find_base<F: Files>(alloc: Global, files: &mut F, name: &str) -> Result<MemHeader, RebaseError>
    ensures finds { Tells (F.known files.old).health →
        Answers Same result (base_found (get (F.known files.old).saved name.now)) }
    ensures same { Tells (F.known files.old).health → SameFiles (F.known files.old) (F.known files.new) }
    ensures cause { RebaseCause result (F.known files.old).health.faults (F.known files.new).health.faults }
    ensures lasts { Lasts (F.known files.old).health (F.known files.new).health }
{
    match read_start(alloc, files, name, MemHeader::SIZE as u64) {
        Ok(Some(start)) => judge_base(alloc, start.size, &start.bytes),
        Ok(None) => Err(RebaseError::Refused(Refusal::NoSuchFile)),
        Err(why) => Err(failed_by(why)),
    }
}

/// A diff before its pages, whose stored pages have passed. Nothing is written.
///
/// Errors: `Refused` by the first that fits: no such file, its gate, its magic, a field. `Fault` where a call on the files
/// failed.
pub fn find_diff<F: Files>(
    alloc: Global,
    files: &mut F,
    name: &str,
) -> Result<DiffStart, RebaseError>
    ensures finds { Tells (F.known files.old).health →
        Answers (IsStartIn (get (F.known files.old).saved name.now)) result
        (diff_found (get (F.known files.old).saved name.now)) }
    ensures table { IfOk result (λ start. IsTrue (is_table start.header start.runs)) }
    ensures whole { IfOk result (λ start. IsWhole start.header start.runs) }
    ensures same { Tells (F.known files.old).health → SameFiles (F.known files.old) (F.known files.new) }
    ensures cause { RebaseCause result (F.known files.old).health.faults (F.known files.new).health.faults }
    ensures lasts { Lasts (F.known files.old).health (F.known files.new).health }
{
    let start = match read_start(alloc, files, name, DiffHeader::SIZE as u64) {
        Ok(Some(start)) => start,
        Ok(None) => return Err(RebaseError::Refused(Refusal::NoSuchFile)),
        Err(why) => return Err(failed_by(why)),
    };
    match judge_diff(alloc, start.size, &start.bytes) {
        Ok(header) => find_rest(alloc, files, name, header),
        Err(why) => Err(why),
    }
}

/// How many pages the diff under this name has.
///
/// Errors: `Refused` by the first that fits: no such file, its gate, its magic, a field. `Fault` where a call on the files
/// failed. Nothing is written.
pub fn diff_pages<F: Files>(alloc: Global, files: &mut F, name: &str) -> Result<u32, RebaseError>
    ensures counts { Tells (F.known files.old).health →
        Answers HasPages result (diff_found (get (F.known files.old).saved name.now)) }
    ensures same { Tells (F.known files.old).health → SameFiles (F.known files.old) (F.known files.new) }
    ensures cause { RebaseCause result (F.known files.old).health.faults (F.known files.new).health.faults }
    ensures lasts { Lasts (F.known files.old).health (F.known files.new).health }
{
    match find_diff(alloc, files, name) {
        Ok(start) => Ok(count_pages(&start.header, start.runs.as_slice())),
        Err(why) => Err(why),
    }
}

// A diff whose file begins with this header, and has as many bytes as it says.
fn find_rest<F: Files>(
    alloc: Global,
    files: &mut F,
    name: &str,
    header: DiffHeader,
) -> Result<DiffStart, RebaseError>
    requires { IsHeader header }
    ensures finds { Tells (F.known files.old).health → (given : List ℕ) →
        get (F.known files.old).saved name.now ≡ Some given → Begins (take 64 given) header →
        length given ≡ 64 + size_behind header → Answers (IsStartOf given) result (diff_found (Some given)) }
    ensures table { IfOk result (λ start. IsTrue (is_table start.header start.runs)) }
    ensures whole { IfOk result (λ start. IsWhole start.header start.runs) }
    ensures same { Tells (F.known files.old).health → SameFiles (F.known files.old) (F.known files.new) }
    ensures cause { RebaseCause result (F.known files.old).health.faults (F.known files.new).health.faults }
    ensures lasts { Lasts (F.known files.old).health (F.known files.new).health }
{
    match table_of(alloc, files, name, header) {
        Ok(runs) => check_pages(alloc, files, name, DiffStart { header, runs }),
        Err(why) => Err(why),
    }
}

// The runs of the table behind a header, in a file that has as many bytes as the header says.
fn table_of<F: Files>(
    alloc: Global,
    files: &mut F,
    name: &str,
    header: DiffHeader,
) -> Result<Items<Run>, RebaseError>
    ensures finds { Tells (F.known files.old).health → (given : List ℕ) →
        get (F.known files.old).saved name.now ≡ Some given → Begins (take 64 given) header →
        length given ≡ 64 + size_behind header → TableJudged given header result }
    ensures runs { IfOk result (λ runs. AreRunsOf header runs) }
    ensures table { IfOk result (λ runs. IsTrue (is_table header runs)) }
    ensures same { Tells (F.known files.old).health → SameFiles (F.known files.old) (F.known files.new) }
    ensures cause { RebaseCause result (F.known files.old).health.faults (F.known files.new).health.faults }
    ensures lasts { Lasts (F.known files.old).health (F.known files.new).health }
{
    let front = DiffHeader::SIZE as u64 + header.table_size();
    match read_front(alloc, files, name, front) {
        Ok(bytes) => judge_table(alloc, header, &bytes),
        Err(why) => Err(failed_by(why)),
    }
}

/// What is found under the names of a base and a diff, or the first refusal that fits.
pub(crate) fn find<F: Files>(
    alloc: Global,
    files: &mut F,
    base: &str,
    diff: &str,
) -> Result<Pair, RebaseError>
    ensures finds { Tells (F.known files.old).health →
        Answers (IsPairIn (get (F.known files.old).saved diff.now)) result
        (both_in (F.known files.old).saved base.now diff.now) }
    ensures table { IfOk result (λ pair. IsTrue (is_table pair.diff.header pair.diff.runs)) }
    ensures same { Tells (F.known files.old).health → SameFiles (F.known files.old) (F.known files.new) }
    ensures cause { RebaseCause result (F.known files.old).health.faults (F.known files.new).health.faults }
    ensures lasts { Lasts (F.known files.old).health (F.known files.new).health }
{
    let base = match find_base(alloc, files, base) {
        Ok(header) => header,
        Err(why) => return Err(why),
    };
    match find_diff(alloc, files, diff) {
        Ok(diff) => Ok(Pair { base, diff }),
        Err(why) => Err(why),
    }
}
