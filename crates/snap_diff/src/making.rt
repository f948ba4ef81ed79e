// The runs of given pages.
ghost use Rattle.std.specs.Prelude.{◌≡◌, ◌≤◌, ◌<◌, ◌+◌, ◌^◌, ◌++◌, ◌∷◌, Bool, List, ℕ, length, IfOk, OnOk};
ghost use Rattle.snap_diff.specs.Runs.{goes_on, run_of, runs_from, runs_of};

use crate::run::Run;
use file_format::Items;
use std::alloc::{AllocError, Global};

fn run_of(number: u32, stored: bool) -> Run
    ensures { result ≡ run_of number stored }
{
    Run {
        first: number,
        length: 1,
        stored,
    }
}

fn goes_on(run: &Run, number: u32, stored: bool) -> bool
    ensures { result ≡ goes_on run.now number stored }
{
    run.first as u64 + run.length as u64 == number as u64 && run.stored == stored
}

// A page more: of this run, or else of one behind it.
fn put_page(
    runs: &mut Items<Run>,
    run: &mut Run,
    number: u32,
    stored: bool,
) -> Result<(), AllocError>
    requires { run.old.length + 1 < 2 ^ 32 }
    ensures length { OnOk result (run.new.length ≤ run.old.length + 1) }
    ensures runs { OnOk result ((numbers : List ℕ) (kinds : List Bool) →
        runs.new ++ runs_from run.new numbers kinds ≡ runs.old ++ runs_from run.old (number ∷ numbers) (stored ∷ kinds)) }
{
    if goes_on(run, number, stored) {
        run.length += 1;
    } else {
        runs.push(*run)?;
        *run = run_of(number, stored);
    }
    Ok(())
}

/// The runs of the pages of these numbers, of which each is stored or zeros: as few as there can be. No memory has 2^32 pages.
#[tactic(auto, using(crate::proofs::Loops::first_run, crate::proofs::Loops::runs_more, crate::proofs::Loops::runs_last))]
pub fn runs_of(alloc: Global, numbers: &[u32], kinds: &[bool]) -> Result<Items<Run>, AllocError>
    requires kinds { length kinds.now ≡ length numbers.now }
    requires few { length numbers.now < 2 ^ 32 }
    ensures { IfOk result (λ runs. runs ≡ runs_of numbers.now kinds.now) }
{
    let mut runs = Items::new(alloc);
    if numbers.is_empty() {
        return Ok(runs);
    }
    let mut run = run_of(numbers[0], kinds[0]);
    for i in 1..numbers.len() {
        put_page(&mut runs, &mut run, numbers[i], kinds[i])?;
    }
    runs.push(run)?;
    Ok(runs)
}
