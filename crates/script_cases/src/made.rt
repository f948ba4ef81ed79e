// How many pages of a machine's memory are made where a script ends: those in which something was left. What each page reads as is
// proved; that no other page is made is shown here.
use crate::case::{Case, read_case};
use crate::replaying::files_of;
use anyhow::{Result, bail};
use monitor_core::Monitor;
use outside_mem::MemoryFiles;
use script_text::{LineReader, Next};
use std::alloc::Global;
use std::rt::Files;
use vm_types::TextList;

/// Cases whose guest runs in the end, or is off. A start makes two pages: the image's and the tree's. A load makes those that aren't
/// zeros, and those in which something is reserved.
const COUNTED: [&str; 4] = [
    "worked/first_run",
    "worked/a_read_makes_no_page",
    "worked/two_harts_add_to_one_word",
    "alike/reserved_2",
];

pub fn print<R: Files + Print + AllocGlobal>(rt: &R) -> Result<()> {
    for name in COUNTED {
        let case = read_case(rt, name)?;
        let made = made_by(rt.alloc(), &case)?;
        println!(rt; "{name}: pages made => {made:?}")?;
    }
    Ok(())
}

// `None` where no guest runs.
fn made_by(alloc: Global, case: &Case) -> Result<Option<usize>> {
    let mut files = files_of(alloc, &case.given.files, &[])?;
    let mut monitor = Monitor::new(alloc, TextList::copy_of(alloc, "counted")?)?;
    play(alloc, &mut monitor, &case.script, &mut files)?;
    Ok(made_in(&mut monitor))
}

// Plays the script's lines, up to one that is none.
fn play(
    alloc: Global,
    monitor: &mut Monitor,
    script: &[u8],
    files: &mut MemoryFiles,
) -> Result<()> {
    let mut reader = LineReader::new(alloc);
    reader.feed(script)?;
    for _line in 0..script.len() {
        let Next::Line(item) = reader.next()? else {
            break;
        };
        if monitor.item(item, files).is_err() {
            bail!("an item of a script isn't done");
        }
    }
    Ok(())
}

fn made_in(monitor: &mut Monitor) -> Option<usize> {
    let pages = monitor.machine().running()?.pages();
    Some(pages.len().wrapping_sub(pages.unmade()))
}
