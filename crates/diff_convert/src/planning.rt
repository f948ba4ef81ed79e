// What is to be written of a diff.
ghost use Rattle.std.specs.Prelude.{◌≡◌, ◌<◌, ◌/◌, ◌^◌, true, IfOk, List, ℕ, length, map};
ghost use Rattle.file_format.specs.declared.version.Version.TheVariants.{One, Two};
ghost use Rattle.guest_pages.specs.Pages.{flat_of};
ghost use Rattle.snap_diff.specs.declared.run.Run.{Run};
ghost use Rattle.snap_diff.specs.Diffs.{are_stored, copy_of};
ghost use Rattle.snap_diff.specs.Runs.{chosen, kinds_of, numbers_from, runs_of};
ghost use Rattle.snap_writer.specs.Selected.{can_select};
ghost use Rattle.snapshot_merge.specs.Answering.{IsWhole};
ghost use Rattle.diff_convert.specs.Planning.{IsPlan, numbers_in, parts_here};

use file_format::{Items, Version};
use guest_pages::PageSet;
use snap_diff::{DiffHeader, Run, runs_of};
use snap_writer::{SavedPages, chosen};
use snapshot_merge::DiffStart;
use std::alloc::{AllocError, Global};

/// What stands between the gate and the pages, and which of the pages that the diff stores; `None` is all.
#[derive(Drop)]
pub struct Plan {
    pub head: Vec<u8>,
    pub numbers: Option<Vec<u32>>,
}

/// The plan of a diff that stores these pages.
pub fn plan_of(alloc: Global, start: &DiffStart, pages: &PageSet) -> Result<Plan, AllocError>
    requires whole { IsWhole start.now.header start.now.runs }
    requires pages { length pages.now.pages ≡ start.now.header.stored }
    requires few { length pages.now.pages < 2 ^ 32 }
    ensures plans { IfOk result (λ plan.
        are_stored start.now.header.version start.now.header.stored (flat_of pages.now.pages).bytes ≡ true →
        IsPlan plan (flat_of pages.now.pages).bytes
        (copy_of (parts_here start.now.header start.now.runs (flat_of pages.now.pages).bytes))) }
    ensures there { IfOk result (λ plan. can_select (numbers_in plan.numbers) (length pages.now.pages) ≡ true) }
{
    match start.header.version {
        Version::One => plan_anew(alloc, start, pages),
        Version::Two => plan_again(alloc, start, pages),
    }
}

// A diff of version 2 has one file.
fn plan_again(alloc: Global, start: &DiffStart, pages: &PageSet) -> Result<Plan, AllocError>
    requires version { start.now.header.version ≡ Two }
    requires whole { IsWhole start.now.header start.now.runs }
    requires pages { length pages.now.pages ≡ start.now.header.stored }
    requires few { length pages.now.pages < 2 ^ 32 }
    ensures plans { IfOk result (λ plan.
        are_stored start.now.header.version start.now.header.stored (flat_of pages.now.pages).bytes ≡ true →
        IsPlan plan (flat_of pages.now.pages).bytes
        (copy_of (parts_here start.now.header start.now.runs (flat_of pages.now.pages).bytes))) }
    ensures there { IfOk result (λ plan. can_select (numbers_in plan.numbers) (length pages.now.pages) ≡ true) }
{
    let _size = pages.len();
    let table = start.runs.as_slice();
    let head = start.header.encode_behind_gate(alloc, table)?;
    Ok(Plan {
        head,
        numbers: None,
    })
}

// The runs of a diff of version 1 are found by its pages.
fn plan_anew(alloc: Global, start: &DiffStart, pages: &PageSet) -> Result<Plan, AllocError>
    requires version { start.now.header.version ≡ One }
    requires whole { IsWhole start.now.header start.now.runs }
    requires pages { length pages.now.pages ≡ start.now.header.stored }
    requires few { length pages.now.pages < 2 ^ 32 }
    ensures plans { IfOk result (λ plan.
        are_stored start.now.header.version start.now.header.stored (flat_of pages.now.pages).bytes ≡ true →
        IsPlan plan (flat_of pages.now.pages).bytes
        (copy_of (parts_here start.now.header start.now.runs (flat_of pages.now.pages).bytes))) }
    ensures there { IfOk result (λ plan. can_select (numbers_in plan.numbers) (length pages.now.pages) ≡ true) }
{
    let old = start.header;
    let _size = pages.len();
    let (runs, stored) = runs_anew(alloc, start, pages)?;
    let table = runs.as_slice();
    let count = table.len() as u32;
    let filled = stored.len() as u32;
    let header = DiffHeader {
        version: Version::Two,
        names: old.names,
        count,
        stored: filled,
    };
    let head = header.encode_behind_gate(alloc, table)?;
    Ok(Plan {
        head,
        numbers: Some(stored),
    })
}

// The runs by the bytes of these pages, and which of them are stored.
fn runs_anew(
    alloc: Global,
    start: &DiffStart,
    pages: &PageSet,
) -> Result<(Items<Run>, Vec<u32>), AllocError>
    requires version { start.now.header.version ≡ One }
    requires whole { IsWhole start.now.header start.now.runs }
    requires pages { length pages.now.pages ≡ start.now.header.stored }
    requires few { length pages.now.pages < 2 ^ 32 }
    ensures runs { IfOk result (λ it. it.0 ≡ runs_of (map (λ (r : Run). r.first) start.now.runs)
        (kinds_of (length (flat_of pages.now.pages).bytes / 4096) (flat_of pages.now.pages).bytes)) }
    ensures stored { IfOk result (λ it. it.1.items ≡ chosen (numbers_from 0 start.now.header.stored)
        (kinds_of (length (flat_of pages.now.pages).bytes / 4096) (flat_of pages.now.pages).bytes)) }
{
    let old = start.header;
    let _size = pages.len();
    let kinds = SavedPages::all(pages).kinds(alloc)?;
    let numbers = firsts_of(alloc, start.runs.as_slice())?;
    let runs = runs_of(alloc, &numbers, &kinds)?;
    let places = places_of(alloc, old.stored)?;
    let stored = chosen(alloc, &places, &kinds)?;
    Ok((runs, stored))
}

// The first page of each run.
fn firsts_of(alloc: Global, runs: &[Run]) -> Result<Vec<u32>, AllocError>
    ensures { IfOk result (λ numbers. numbers.items ≡ map (λ (r : Run). r.first) runs.now) }
{
    runs.iter().map(|run| run.first).collect(alloc)
}

// So many numbers, from 0 on.
#[tactic(auto, using(crate::proofs::Places::one_place))]
fn places_of(alloc: Global, count: u32) -> Result<Vec<u32>, AllocError>
    ensures { IfOk result (λ places. places.items ≡ numbers_from 0 count) }
{
    let mut places = Vec::new(alloc);
    for place in 0..count {
        places.push(place)?;
    }
    Ok(places)
}
