// The stages of a merge: writes to the base, and a sync behind them.
ghost use Rattle.std.specs.Prelude.{◌≡◌, ◌≢◌, ◌≤◌, ◌+◌, ◌*◌, ◌^◌, ◌∷◌, ◌++◌, [], IsTrue, if◌then◌else◌, List, ℕ, Some, drop, length, OnErr, OnOk};
ghost use Rattle.std.specs.FinMap.{get};
ghost use Rattle.file_format.specs.Identities.{identity};
ghost use Rattle.gate_file.specs.Runs.{RunsAll, RunsPart};
ghost use Rattle.gate_file.specs.Gate.{write_calls};
ghost use Rattle.snap_diff.specs.Copies.{DiffCopy};
ghost use Rattle.snap_diff.specs.Diffs.{is_table};
ghost use Rattle.snapshot_merge.specs.Answering.{AreThere, IsPage, run_writes};
ghost use Rattle.gate_file.specs.Stages.{calls_of, stage_calls, text_after, written_all};
ghost use Rattle.snapshot_merge.specs.Calls.{filling, marking, naming, page_writes, slot_at};
ghost use Rattle.vm_outside.specs.Calls.{FileCall};
ghost use Rattle.vm_outside.specs.Filing.{SameFiles};
ghost use Rattle.vm_outside.specs.Known.{Called, Tells};

use crate::finding::DiffStart;
use guest_memory::PAGE_SIZE;
use snap_diff::{DiffHeader, Run};
use snap_memory::MemHeader;
use vm_outside::{Failed, Files};

// Where the merging byte is.
const MERGING: u64 = 32;

// The place of the slot of this number.
fn slot_at(slot: u32) -> u64
    ensures { result ≡ slot_at slot }
{
    64 + 32 * slot as u64
}

// One write, and a sync.
fn put<F: Files>(files: &mut F, name: &str, at: u64, bytes: &[u8]) -> Result<(), Failed>
    ensures done { OnOk result (Tells (F.known files.old).health →
        (text : List ℕ) → get (F.known files.old).saved name.now ≡ Some text →
        RunsAll name.now (stage_calls name.now ((at, bytes.now) ∷ []) text) (written_all ((at, bytes.now) ∷ []) text)
        (F.known files.old) (F.known files.new)) }
    ensures begun { OnErr result (Tells (F.known files.old).health →
        (text : List ℕ) → get (F.known files.old).saved name.now ≡ Some text →
        RunsPart name.now (stage_calls name.now ((at, bytes.now) ∷ []) text) (F.known files.old) (F.known files.new)) }
    ensures called { Called (F.known files.old).health (F.known files.new).health result }
{
    files.write_at(name, at, bytes)?;
    files.sync(name)?;
    Ok(())
}

/// The merging byte is set, and synced.
pub(crate) fn mark<F: Files>(files: &mut F, base: &str, value: u8) -> Result<(), Failed>
    ensures done { OnOk result (Tells (F.known files.old).health →
        (text : List ℕ) → get (F.known files.old).saved base.now ≡ Some text →
        RunsAll base.now (calls_of base.now ((marking value ∷ []) ∷ []) text) (text_after ((marking value ∷ []) ∷ []) text)
        (F.known files.old) (F.known files.new)) }
    ensures begun { OnErr result (Tells (F.known files.old).health →
        (text : List ℕ) → get (F.known files.old).saved base.now ≡ Some text →
        RunsPart base.now (calls_of base.now ((marking value ∷ []) ∷ []) text) (F.known files.old) (F.known files.new)) }
    ensures called { Called (F.known files.old).health (F.known files.new).health result }
{
    put(files, base, MERGING, &[value])?;
    Ok(())
}

/// The slot is given the diff's identity, and the merging byte says that the merge is unfinished.
pub(crate) fn begin<F: Files>(
    files: &mut F,
    base: &str,
    slot: u32,
    name: &[u8],
) -> Result<(), Failed>
    ensures done { OnOk result (Tells (F.known files.old).health →
        (text : List ℕ) → get (F.known files.old).saved base.now ≡ Some text →
        RunsAll base.now (calls_of base.now (((slot_at slot, name.now) ∷ []) ∷ (marking 1 ∷ []) ∷ []) text)
        (text_after (((slot_at slot, name.now) ∷ []) ∷ (marking 1 ∷ []) ∷ []) text)
        (F.known files.old) (F.known files.new)) }
    ensures begun { OnErr result (Tells (F.known files.old).health →
        (text : List ℕ) → get (F.known files.old).saved base.now ≡ Some text →
        RunsPart base.now (calls_of base.now (((slot_at slot, name.now) ∷ []) ∷ (marking 1 ∷ []) ∷ []) text)
        (F.known files.old) (F.known files.new)) }
    ensures called { Called (F.known files.old).health (F.known files.new).health result }
{
    put(files, base, slot_at(slot), name)?;
    mark(files, base, 1)?;
    Ok(())
}

/// The diff's pages are put in their places, then the slot's gate is opened, and at last the merge is finished.
pub(crate) fn fill<F: Files>(
    files: &mut F,
    base: &str,
    diff: &str,
    slot: u32,
    start: &DiffStart,
    page: &mut [u8],
) -> Result<(), Failed>
    requires room { length page.old ≡ 4096 }
    requires table { IsTrue (is_table start.now.header start.now.runs) }
    ensures done { OnOk result (Tells (F.known files.old).health → (d : DiffCopy) (text : List ℕ) →
        get (F.known files.old).saved base.now ≡ Some text →
        AreThere base.now diff.now start.now d (F.known files.old).saved →
        RunsAll base.now (calls_of base.now (filling slot d) text) (text_after (filling slot d) text)
        (F.known files.old) (F.known files.new)) }
    ensures begun { OnErr result (Tells (F.known files.old).health → (d : DiffCopy) (text : List ℕ) →
        get (F.known files.old).saved base.now ≡ Some text →
        AreThere base.now diff.now start.now d (F.known files.old).saved →
        RunsPart base.now (calls_of base.now (filling slot d) text) (F.known files.old) (F.known files.new)) }
    ensures called { Called (F.known files.old).health (F.known files.new).health result }
{
    put_pages(files, base, diff, start, page)?;
    put(files, base, slot_at(slot) + 16, &[1])?;
    mark(files, base, 0)?;
    Ok(())
}

// The pages, one write each, and a sync.
fn put_pages<F: Files>(
    files: &mut F,
    base: &str,
    diff: &str,
    start: &DiffStart,
    page: &mut [u8],
) -> Result<(), Failed>
    requires room { length page.old ≡ 4096 }
    requires table { IsTrue (is_table start.now.header start.now.runs) }
    ensures done { OnOk result (Tells (F.known files.old).health → (d : DiffCopy) (text : List ℕ) →
        get (F.known files.old).saved base.now ≡ Some text →
        AreThere base.now diff.now start.now d (F.known files.old).saved →
        RunsAll base.now (stage_calls base.now (page_writes d.numbers d.bytes) text)
        (written_all (page_writes d.numbers d.bytes) text) (F.known files.old) (F.known files.new)) }
    ensures begun { OnErr result (Tells (F.known files.old).health → (d : DiffCopy) (text : List ℕ) →
        get (F.known files.old).saved base.now ≡ Some text →
        AreThere base.now diff.now start.now d (F.known files.old).saved →
        RunsPart base.now (stage_calls base.now (page_writes d.numbers d.bytes) text)
        (F.known files.old) (F.known files.new)) }
    ensures called { Called (F.known files.old).health (F.known files.new).health result }
{
    let _size = start.header.size_behind();
    let mut at = DiffHeader::SIZE as u64 + start.header.table_size();
    let runs = start.runs.as_slice();
    for run in runs {
        put_run(files, base, diff, at, run, page)?;
        at += stored_bytes(run);
    }
    files.sync(base)?;
    Ok(())
}

// How many bytes of a diff's file the pages of a run have.
fn stored_bytes(run: &Run) -> u64
    ensures { result ≡ 4096 * (if run.now.stored then run.now.length else 0) }
{
    if run.stored {
        PAGE_SIZE as u64 * run.length as u64
    } else {
        0
    }
}

// The pages of a run, one write each. Where they are stored they are read from this offset of the diff's file on.
fn put_run<F: Files>(
    files: &mut F,
    base: &str,
    diff: &str,
    at: u64,
    run: &Run,
    page: &mut [u8],
) -> Result<(), Failed>
    requires early { at ≤ 2 ^ 62 }
    requires room { length page.old ≡ 4096 }
    ensures room { length page.new ≡ 4096 }
    ensures done { OnOk result (Tells (F.known files.old).health → (text given : List ℕ) →
        get (F.known files.old).saved base.now ≡ Some text → get (F.known files.old).saved diff.now ≡ Some given →
        diff.now ≢ base.now →
        RunsAll base.now (write_calls base.now (run_writes run.now (drop at given)))
        (written_all (run_writes run.now (drop at given)) text) (F.known files.old) (F.known files.new)) }
    ensures begun { OnErr result (Tells (F.known files.old).health → (text given : List ℕ) →
        get (F.known files.old).saved base.now ≡ Some text → get (F.known files.old).saved diff.now ≡ Some given →
        diff.now ≢ base.now → (more : List FileCall) → more ≢ [] →
        RunsPart base.now (write_calls base.now (run_writes run.now (drop at given)) ++ more)
        (F.known files.old) (F.known files.new)) }
    ensures called { Called (F.known files.old).health (F.known files.new).health result }
{
    for i in 0..run.length {
        fetch(
            files,
            diff,
            run.stored,
            at + PAGE_SIZE as u64 * i as u64,
            page,
        )?;
        let number = run.first as u64 + i as u64;
        files.write_at(
            base,
            MemHeader::SIZE as u64 + PAGE_SIZE as u64 * number,
            page,
        )?;
    }
    Ok(())
}

// A page of a diff: the bytes of its file from this offset on, or zeros.
fn fetch<F: Files>(
    files: &mut F,
    diff: &str,
    stored: bool,
    at: u64,
    page: &mut [u8],
) -> Result<(), Failed>
    ensures page { OnOk result (Tells (F.known files.old).health →
        IsPage (get (F.known files.old).saved diff.now) stored at page.new) }
    ensures room { length page.new ≡ length page.old }
    ensures same { Tells (F.known files.old).health → SameFiles (F.known files.old) (F.known files.new) }
    ensures called { Called (F.known files.old).health (F.known files.new).health result }
{
    if stored {
        files.read_at(diff, at, page)
    } else {
        page.fill(0);
        Ok(())
    }
}
