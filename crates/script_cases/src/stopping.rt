// Creates and merges that are stopped at each of their calls: what the files hold then, and what a load or a merge makes of it.
use crate::held::Held;
use crate::listing::names_in;
use crate::replaying::files_of;
use crate::showing::{text_of, words_of};
use crate::sweep::{Act, Sweep, Told, read_sweep};
use anyhow::{Context, Result};
use monitor_cli::{Outside, replay_main};
use outside_mem::{Failing, MemoryFiles, MemorySink, MemorySource};
use rebase_cli::rebase_main;
use std::alloc::{AllocError, Global};
use std::rt::Files;

// A call that none of these acts comes to.
const NO_CALL: u64 = u64::MAX;

/// A line for each call of each sweep: what the act that is stopped answered, what each file holds, and then each act that is
/// tried on these files, with its answer.
pub fn print<R: Files + Print + AllocGlobal + Clone + Drop>(rt: &R) -> Result<()> {
    for name in names_in(rt, "sweeps", ".sweep")? {
        let sweep = read_sweep(rt, name.as_str()).context(format_args!("{name}"))?;
        print_sweep(rt, name.as_str(), &sweep)?;
    }
    Ok(())
}

type With = Outside<MemorySource, MemorySink, MemoryFiles>;

fn print_sweep<R: Print + AllocGlobal>(rt: &R, name: &str, sweep: &Sweep) -> Result<()> {
    let alloc = rt.alloc();
    let before = held_before(alloc, sweep)?;
    let whole = held_whole(alloc, sweep, &before)?;
    for call in 0..sweep.count {
        let stop = sweep.first.saturating_add(call);
        let line = line_of(alloc, sweep, &before, &whole, stop)?;
        println!(rt; "{name}, {call}:{line}")?;
    }
    let line = line_of(alloc, sweep, &before, &whole, NO_CALL)?;
    println!(rt; "{name}, {}:{line}", sweep.count)?;
    Ok(())
}

// What is stopped at this call, and what is told of it.
fn line_of(
    alloc: Global,
    sweep: &Sweep,
    before: &[Held],
    whole: &[Held],
    stop: u64,
) -> Result<String> {
    let mut line = String::new(alloc);
    let mut with = with_files(alloc, before, &[stop])?;
    do_all(alloc, &sweep.stopped, &mut with, &mut line)?;
    tell_files(&sweep.names, before, whole, &with.files, &mut line)?;
    do_all(alloc, &sweep.tried, &mut with, &mut line)?;
    Ok(line)
}

// What the files hold before the act that is stopped.
fn held_before(alloc: Global, sweep: &Sweep) -> Result<Vec<Held>> {
    held_after(alloc, sweep, &sweep.before, &[])
}

// And what they hold where nothing stops it.
fn held_whole(alloc: Global, sweep: &Sweep, before: &[Held]) -> Result<Vec<Held>> {
    held_after(alloc, sweep, &sweep.stopped, before)
}

fn held_after(alloc: Global, sweep: &Sweep, acts: &[Told], held: &[Held]) -> Result<Vec<Held>> {
    let mut untold = String::new(alloc);
    let mut with = with_files(alloc, held, &[])?;
    do_all(alloc, acts, &mut with, &mut untold)?;
    held_of(alloc, &with.files, &sweep.names)
}

// These files, of whose calls those of these numbers fail.
fn with_files(alloc: Global, held: &[Held], fails: &[u64]) -> Result<With> {
    let files = files_of(alloc, held, fails)?;
    Ok(Outside {
        source: source_of(alloc, "")?,
        sink: MemorySink::new(alloc, 4096, never(alloc)),
        files,
    })
}

fn source_of(alloc: Global, script: &str) -> Result<MemorySource, AllocError> {
    let bytes = script.as_bytes().to_vec(alloc)?;
    Ok(MemorySource::new(bytes, 4096, never(alloc)))
}

fn never(alloc: Global) -> Failing {
    Failing::new(Vec::new(alloc))
}

// ---- acts

fn do_all(alloc: Global, acts: &[Told], with: &mut With, line: &mut String) -> Result<()> {
    for told in acts {
        write!(line, " {} => ", told.words)?;
        do_act(alloc, &told.act, with, line)?;
        line.push_str(";")?;
    }
    Ok(())
}

fn do_act(alloc: Global, act: &Act, with: &mut With, line: &mut String) -> Result<(), AllocError> {
    match act {
        Act::Replay { script } => replay(alloc, script.as_str(), with, line),
        Act::Merge { base, diff } => merge(alloc, base.as_str(), diff.as_str(), with, line),
    }
}

fn replay(
    alloc: Global,
    script: &str,
    with: &mut With,
    line: &mut String,
) -> Result<(), AllocError> {
    let words = words_of(alloc, "replay")?;
    with.source = source_of(alloc, script)?;
    with.sink = MemorySink::new(alloc, 4096, never(alloc));
    let _ = replay_main(alloc, &words, with);
    line.push_str(answer_of(text_of(with.sink.taken())))
}

fn merge(
    alloc: Global,
    base: &str,
    diff: &str,
    with: &mut With,
    line: &mut String,
) -> Result<(), AllocError> {
    let words = merge_words(alloc, base, diff)?;
    let mut out = MemorySink::new(alloc, 80, never(alloc));
    let end = rebase_main(alloc, &words, &mut with.files, &mut out);
    write!(line, "{end:?}")
}

fn merge_words(alloc: Global, base: &str, diff: &str) -> Result<Vec<String>, AllocError> {
    let line = format!(in alloc; "edit-memory rebase --memory-path {base} --diff-path {diff}")?;
    words_of(alloc, line.as_str())
}

// The last reply of an output: its refusal's number, or its status.
fn answer_of(output: &str) -> &str {
    let mut last = "";
    for line in output.lines() {
        last = line;
    }
    let Some((_, why)) = last.split_once("fault_message\":\"") else {
        return last;
    };
    match why.split_once(':') {
        Some((number, _)) => number,
        None => why,
    }
}

// ---- what files hold

fn held_of(alloc: Global, files: &MemoryFiles, names: &[String]) -> Result<Vec<Held>> {
    let mut held = Vec::new(alloc);
    for name in names {
        if let Some(content) = files.find(name.as_str()) {
            held.push(copied(alloc, name.as_str(), content)?)?;
        }
    }
    Ok(held)
}

fn copied(alloc: Global, name: &str, content: &[u8]) -> Result<Held, AllocError> {
    let name = String::from_str(alloc, name)?;
    let content = content.to_vec(alloc)?;
    Ok(Held {
        name,
        content: Some(content),
    })
}

fn tell_files(
    names: &[String],
    before: &[Held],
    whole: &[Held],
    left: &MemoryFiles,
    line: &mut String,
) -> Result<(), AllocError> {
    for name in names {
        let name = name.as_str();
        let state = state_of(
            content_of(before, name),
            content_of(whole, name),
            left.find(name),
        );
        write!(line, " {name} {state};")?;
    }
    Ok(())
}

fn content_of<'a>(files: &'a [Held], name: &str) -> Option<&'a [u8]> {
    for held in files {
        if held.name.as_str() == name {
            return held.content.as_deref();
        }
    }
    None
}

fn state_of(before: Option<&[u8]>, whole: Option<&[u8]>, left: Option<&[u8]>) -> &'static str {
    let Some(bytes) = left else {
        return "absent";
    };
    if left == before {
        "as before"
    } else if left == whole {
        "whole"
    } else if is_shut(bytes) {
        "shut"
    } else {
        "changed"
    }
}

fn is_shut(bytes: &[u8]) -> bool {
    match bytes.first() {
        Some(gate) => *gate != 1,
        None => true,
    }
}
