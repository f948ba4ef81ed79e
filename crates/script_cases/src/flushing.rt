// A guest that reads, writes and flushes its disk, where the flush fails.
use crate::held::{Held, held_from};
use crate::requests::START_WITH_A_DISK;
use crate::sessions::{NOBODY_CALLS, Out, Session, out_of, put, run, with_of};
use anyhow::Result;
use outside_mem::{Failing, MemoryFiles};
use std::alloc::{AllocError, Global};
use std::rt::Files;
use std::sync::Wait;
use std::thread::Threads;
use std::{fs, io};

// The disk is asked for the eight parts of a sector, written as many, and then flushed.
const UNFLUSHED: Session = Session {
    name: "a flush that fails",
    second: Some(START_WITH_A_DISK),
    disk_fails: &[16],
    ..NOBODY_CALLS
};

// A script that begins with the files of the guest and of its drive.
const SCRIPT: &str = "disks/cut_before_a_flush_1.script";

pub fn print<R: Threads + Wait + Files + Print + AllocGlobal + Sync>(rt: &R) -> Result<()> {
    let script = fs::read(rt, SCRIPT)?;
    let held = all_held(rt.alloc(), str::from_utf8(&script)?)?;
    print_of(rt, &held)?;
    Ok(())
}

// The files that the script says.
fn all_held(alloc: Global, script: &str) -> Result<Vec<Held>> {
    let mut files = Vec::new(alloc);
    for line in script.lines() {
        if let Some(held) = held_from(alloc, line)? {
            files.push(held)?;
        }
    }
    Ok(files)
}

fn print_of<R: Threads + Wait + Print + AllocGlobal + Sync>(
    rt: &R,
    held: &[Held],
) -> io::Result<()> {
    let mut out = out_with(rt.alloc(), held)?;
    let mut with = with_of(rt.alloc(), &UNFLUSHED, content(held, "drive"))?;
    run(rt, &UNFLUSHED, &mut out, &mut with)
}

fn content<'a>(held: &'a [Held], name: &str) -> &'a [u8] {
    match held.iter().find(|held| held.name.as_str() == name) {
        Some(held) => held.content.as_deref().unwrap_or(&[]),
        None => &[],
    }
}

fn out_with(alloc: Global, held: &[Held]) -> Result<Out, AllocError> {
    let mut files = MemoryFiles::new(alloc, Failing::new(Vec::new(alloc)));
    for name in ["disk", "drive"] {
        if put(&mut files, name, content(held, name)).is_err() {
            return Err(AllocError);
        }
    }
    out_of(alloc, Vec::new(alloc), &[], files)
}
