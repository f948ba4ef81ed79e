// Runs of pages, and the table that has an entry for each.
ghost use Rattle.std.specs.Prelude.{◌≡◌, OnOk, not};
ghost use Rattle.file_format.specs.Kinds.{times};
ghost use Rattle.file_format.specs.Readers.{are_zeros};
ghost use Rattle.file_format.specs.Reading.{Takes};
ghost use Rattle.file_format.specs.declared.version.Version.TheVariants.{Two};
ghost use Rattle.snap_diff.specs.Diffs.{entry, run_kind};
ghost use Rattle.snap_diff.specs.Runs.{are_runs, heads, is_inside, may_follow, may_touch, stored_in};

use file_format::{Input, Items, ReadError, Stored, Version, are_zeros};
use std::alloc::{AllocError, Global};

/// Pages that follow each other.
#[derive(Clone, Copy, Drop)]
pub struct Run {
    /// The number of the first page.
    pub first: u32,
    /// How many pages they are.
    pub length: u32,
    /// Whether the file has their bytes. Else they are zeros.
    pub stored: bool,
}

#[tactic(auto, unfolding(crate::specs::Diffs::run_kind))]
fn write_kind(stored: bool, out: &mut Vec<u8>) -> Result<(), AllocError>
    ensures fits { OnOk result (run_kind.Fits stored) }
    ensures bytes { OnOk result (out.new.items ≡ run_kind.puts stored out.old.items) }
{
    if stored {
        1u32.write(out)
    } else {
        0u32.write(out)
    }
}

#[tactic(auto, unfolding(crate::specs::Diffs::run_kind))]
fn read_kind(alloc: Global, input: &mut Input) -> Result<bool, ReadError>
    ensures { Takes run_kind input.old input.new result }
{
    match u32::read(alloc, input)? {
        0 => Ok(false),
        1 => Ok(true),
        _ => Err(ReadError::Bad),
    }
}

/// An entry of version 2.
#[tactic(auto, unfolding(crate::specs::Diffs::entry))]
impl Stored for Run {
    ghost format = { entry Two };

    fn write(&self, out: &mut Vec<u8>) -> Result<(), AllocError> {
        self.first.write(out)?;
        self.length.write(out)?;
        write_kind(self.stored, out)?;
        Ok(())
    }

    fn read(alloc: Global, input: &mut Input) -> Result<Run, ReadError> {
        let (first, length) = Stored::read(alloc, input)?;
        let stored = read_kind(alloc, input)?;
        Ok(Run {
            first,
            length,
            stored,
        })
    }
}

#[tactic(auto, unfolding(crate::specs::Diffs::entry))]
fn read_entry(alloc: Global, version: Version, input: &mut Input) -> Result<Run, ReadError>
    ensures { Takes (entry version) input.old input.new result }
{
    match version {
        Version::One => {
            let first = u32::read(alloc, input)?;
            Ok(Run {
                first,
                length: 1,
                stored: true,
            })
        }
        Version::Two => Run::read(alloc, input),
    }
}

/// Takes so many entries from the front.
#[tactic(auto, using(file_format::proofs::Loops::readings), unfolding(file_format::specs::Kinds::times))]
pub(crate) fn read_entries(
    alloc: Global,
    version: Version,
    count: u32,
    input: &mut Input,
) -> Result<Items<Run>, ReadError>
    ensures { Takes (times count (entry version)) input.old input.new result }
{
    let mut runs = Items::new(alloc);
    for _ in 0..count {
        let run = read_entry(alloc, version, input)?;
        runs.push(run)?;
    }
    Ok(runs)
}

fn is_inside(pages: u32, run: &Run) -> bool
    ensures { result ≡ is_inside pages run.now }
{
    1 <= run.length && run.first as u64 + run.length as u64 <= pages as u64
}

fn may_touch(version: Version, run: &Run, next: &Run) -> bool
    ensures { result ≡ may_touch version run.now next.now }
{
    match version {
        Version::One => true,
        Version::Two => run.stored != next.stored,
    }
}

fn may_follow(version: Version, run: &Run, next: &Run) -> bool
    ensures { result ≡ may_follow version run.now next.now }
{
    let end = run.first as u64 + run.length as u64;
    let touches = may_touch(version, run, next);
    end <= next.first as u64 && (touches || end < next.first as u64)
}

fn heads(version: Version, pages: u32, runs: &[Run]) -> bool
    ensures { result ≡ heads version pages runs.now }
{
    match runs {
        [] => true,
        [run] => is_inside(pages, run),
        [run, next, ..] => is_inside(pages, run) && may_follow(version, run, next),
    }
}

/// Whether each run is inside a memory of so many pages, and they rise as the version wants it.
#[tactic(auto, using(crate::proofs::Loops::runs_next, crate::proofs::Loops::runs_fail, crate::proofs::Loops::runs_end))]
pub(crate) fn are_runs(version: Version, pages: u32, runs: &[Run]) -> bool
    ensures { result ≡ are_runs version pages runs.now }
{
    for i in 0..runs.len() {
        if heads(version, pages, &runs[i..]) {
            continue;
        }
        return false;
    }
    true
}

/// How many pages are stored.
#[tactic(auto, using(crate::proofs::Loops::stored_next, crate::proofs::Loops::stored_end))]
pub(crate) fn stored_in(runs: &[Run]) -> u128
    ensures { result ≡ stored_in runs.now }
{
    let mut pages = 0;
    for run in runs {
        pages += if run.stored { run.length as u128 } else { 0 };
    }
    pages
}

/// Whether a page has a byte that isn't zero.
pub fn is_filled(page: &[u8]) -> bool
    ensures { result ≡ not (are_zeros page.now) }
{
    !are_zeros(page)
}
