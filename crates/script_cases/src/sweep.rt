// What a sweep stops, at which of its calls, and what is tried on what is left, as the lines of its file say it.
use crate::showing::words_of;
use anyhow::{Context, Result, bail};
use std::alloc::Global;
use std::fs;
use std::rt::Files;

/// Something that is done on files: a replay, or a merge of a diff into its base.
#[derive(Drop)]
pub enum Act {
    Replay { script: String },
    Merge { base: String, diff: String },
}

/// An act, and the words that tell it.
#[derive(Drop)]
pub struct Told {
    pub words: String,
    pub act: Act,
}

/// Acts on the same files, one after another, of which those that are stopped are stopped at each of their calls.
#[derive(Drop)]
pub struct Sweep {
    pub before: Vec<Told>,
    pub stopped: Vec<Told>,
    pub tried: Vec<Told>,
    /// The first call at which they are stopped, counted from 0, and how many there are.
    pub first: u64,
    pub count: u64,
    /// The files.
    pub names: Vec<String>,
}

/// Reads the lines of `NAME.sweep`.
pub fn read_sweep<R: Files + AllocGlobal>(rt: &R, name: &str) -> Result<Sweep> {
    let alloc = rt.alloc();
    let path = format!(in alloc; "{name}.sweep")?;
    let text = fs::read_to_string(rt, path.as_str())?;
    let mut sweep = Sweep {
        before: Vec::new(alloc),
        stopped: Vec::new(alloc),
        tried: Vec::new(alloc),
        first: 0,
        count: 0,
        names: Vec::new(alloc),
    };
    for line in text.lines() {
        take_line(rt, &mut sweep, line)?;
    }
    Ok(sweep)
}

fn take_line<R: Files + AllocGlobal>(rt: &R, sweep: &mut Sweep, line: &str) -> Result<()> {
    let (kind, rest) = line.split_once(' ').context("a line of one word")?;
    if kind == "before" {
        sweep.before.push(told_from(rt, rest)?)?;
    } else if kind == "stop" {
        sweep.stopped.push(told_from(rt, rest)?)?;
    } else if kind == "then" {
        sweep.tried.push(told_from(rt, rest)?)?;
    } else if kind == "files" {
        sweep.names = words_of(rt.alloc(), rest)?;
    } else if kind == "from" {
        sweep.first = rest.parse::<u64>()?;
    } else if kind == "calls" {
        sweep.count = rest.parse::<u64>()?;
    } else {
        bail!("no line of a sweep: {line}");
    }
    Ok(())
}

fn told_from<R: Files + AllocGlobal>(rt: &R, line: &str) -> Result<Told> {
    let act = act_from(rt, line)?;
    let words = String::from_str(rt.alloc(), line)?;
    Ok(Told { words, act })
}

// `script FOLDER/NAME`, `load STATE MEMORY` or `merge BASE DIFF`.
fn act_from<R: Files + AllocGlobal>(rt: &R, line: &str) -> Result<Act> {
    let (kind, rest) = line.split_once(' ').context("an act of one word")?;
    if kind == "script" {
        return read_script(rt, rest);
    }
    let (first, second) = rest.split_once(' ').context("an act of one file")?;
    if kind == "load" {
        load_of(rt.alloc(), first, second)
    } else {
        merge_of(rt.alloc(), first, second)
    }
}

fn read_script<R: Files + AllocGlobal>(rt: &R, name: &str) -> Result<Act> {
    let path = format!(in rt.alloc(); "{name}.script")?;
    let script = fs::read_to_string(rt, path.as_str())?;
    Ok(Act::Replay { script })
}

fn load_of(alloc: Global, state: &str, memory: &str) -> Result<Act> {
    let script = format!(in alloc;
        "api PUT /snapshot/load {{\"snapshot_path\":\"{state}\",\"mem_file_path\":\"{memory}\"}}\n"
    )?;
    Ok(Act::Replay { script })
}

fn merge_of(alloc: Global, base: &str, diff: &str) -> Result<Act> {
    let base = String::from_str(alloc, base)?;
    let diff = String::from_str(alloc, diff)?;
    Ok(Act::Merge { base, diff })
}
