// The table behind a header.
ghost use Rattle.std.specs.Prelude.{◌≡◌, ◌≤◌, ◌==◌, ◌&&◌, IsTrue, length};
ghost use Rattle.snap_diff.specs.Diffs.{TableFound, is_table};
ghost use Rattle.snap_diff.specs.Runs.{numbers_of};

use crate::header::DiffHeader;
use crate::run::{Run, are_runs, read_entries, stored_in};
use file_format::{Input, Items, ReadError};
use std::alloc::Global;

fn is_table(header: &DiffHeader, runs: &[Run]) -> bool
    ensures { result ≡ is_table header.now runs.now }
{
    are_runs(header.version, header.names.pages, runs) && stored_in(runs) == header.stored as u128
}

// Nothing is left behind the table.
fn is_whole(header: &DiffHeader, runs: &[Run], left: usize) -> bool
    ensures { result ≡ ((left == 0) && is_table header.now runs.now) }
{
    left == 0 && is_table(header, runs)
}

/// The runs that these bytes are the table of, behind this header.
///
/// `Bad` where they are the table of none.
pub fn read_table(alloc: Global, header: &DiffHeader, table: &[u8]) -> Result<Items<Run>, ReadError>
    ensures { TableFound header.now table.now result }
{
    let mut input = Input::new(table);
    let runs = read_entries(alloc, header.version, header.count, &mut input)?;
    if is_whole(header, runs.as_slice(), input.len()) {
        Ok(runs)
    } else {
        Err(ReadError::Bad)
    }
}

/// How many pages the runs of a table have.
#[tactic(auto, using(crate::proofs::Loops::many_fit))]
pub fn count_pages(header: &DiffHeader, runs: &[Run]) -> u32
    requires { IsTrue (is_table header.now runs.now) }
    ensures { result ≡ length (numbers_of runs.now) }
{
    count_in(runs, header.names.pages)
}

#[tactic(auto, using(crate::proofs::Loops::many_end))]
fn count_in(runs: &[Run], most: u32) -> u32
    requires { length (numbers_of runs.now) ≤ most }
    ensures { result ≡ length (numbers_of runs.now) }
{
    let mut pages = 0;
    for run in runs {
        pages += run.length;
    }
    pages
}
