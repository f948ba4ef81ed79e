//! Replays whole scripts over objects in memory, and compares what they come to with what is stored.
//!
//! A case is a few files in a folder of `data/`, whose README says how they are written: a script, or the name of
//! another case's; its output and status; and where it matters the words of the command, the greatest piece that source
//! and sink take, the calls that are to fail, the files that are there at the start, and what they hold at the end. The
//! program finds the cases where it runs, and prints a line for each. Its status is 1 where a case differs, and 2 where
//! one can't be read.
//!
//! Before them stand lines of what no contract says: that slices of a guest are made and end, and that a machine which plays
//! their trace on one thread stands as they left theirs (`slicing`); that a guest which is served over objects in memory
//! comes to its end, that the replay of its trace answers the same, and which object is named where a call of it fails
//! (`serving`, `flushing`); how much of a file that is no state file a load reads (`foreign`); what is left of a create or a merge
//! that is stopped at each of its calls, and what a load or a merge makes of it (`stopping`); how many pages of memory some scripts
//! make (`made`); and how the objects in memory cut bytes into pieces. None of them depends on the schedule.
//!
//! Read `given` and `case`, what a case says; then `replaying`, and `difference` for what is compared. Of what is served read
//! `sessions` first.
#![tactic(auto)]

mod case;
mod difference;
mod doors;
mod flushing;
mod foreign;
mod given;
mod held;
mod images;
mod listing;
mod made;
mod pieces;
mod playing;
mod replaying;
mod requests;
mod serving;
mod sessions;
mod showing;
mod slicing;
mod stopping;
mod sweep;
mod ticking;

use crate::case::{Case, read_case};
use crate::difference::difference;
use crate::listing::case_names;
use crate::pieces::pieces_of;
use crate::replaying::replay;
use anyhow::{Context, Result};
use std::alloc::Global;
use std::process::ExitCode;
use std::rt::Files;
use std::sync::Wait;
use std::thread::Threads;

fn main(rt: HostRuntime) -> ExitCode {
    match print_all(&rt) {
        Ok(true) => ExitCode::SUCCESS,
        Ok(false) => ExitCode::FAILURE,
        Err(e) => {
            let _ = eprintln!(rt; "{e:?}");
            ExitCode::from(2)
        }
    }
}

fn print_all<R: Threads + Wait + Files + Print + AllocGlobal + Clone + Drop + Sync>(
    rt: &R,
) -> Result<bool> {
    slicing::print(rt)?;
    serving::print(rt)?;
    flushing::print(rt)?;
    foreign::print(rt)?;
    stopping::print(rt)?;
    made::print(rt)?;
    replay_all(rt)
}

// Whether each case comes to what is stored.
fn replay_all<R: Files + Print + AllocGlobal + Clone + Drop>(rt: &R) -> Result<bool> {
    for most in [0, 1, 3, 9] {
        println!(rt; "pieces of {most}: {}", pieces_of(rt.alloc(), most, &[])?)?;
    }
    println!(rt;
        "pieces of 3, calls 1 and 3 failing: {}",
        pieces_of(rt.alloc(), 3, &[1, 3])?
    )?;
    let mut count = 0u64;
    let mut differ = 0u64;
    for name in case_names(rt)? {
        let case = read_case(rt, name.as_str()).context(format_args!("{name}"))?;
        count = count.saturating_add(1);
        match difference_of(rt.alloc(), &case)? {
            None => println!(rt; "{name} ok")?,
            Some(told) => {
                differ = differ.saturating_add(1);
                println!(rt; "{name}: {told}")?;
            }
        }
    }
    println!(rt; "{count} cases, {differ} differ")?;
    Ok(count > 0 && differ == 0)
}

// What differs, at the first of the case's sizes of pieces at which something does.
fn difference_of(alloc: Global, case: &Case) -> Result<Option<String>> {
    for most in case.given.pieces.iter() {
        let replayed = replay(alloc, case, *most)?;
        if let Some(told) = difference(alloc, &replayed, &case.wanted)? {
            return Ok(Some(format!(in alloc; "in pieces of {most}: {told}")?));
        }
    }
    Ok(None)
}
