// A case's replay over objects in memory.
use crate::case::Case;
use crate::held::Held;
use anyhow::{Result, bail};
use load_cli::generate_main;
use load_run::run_main;
use monitor_cli::{Outside, replay_main};
use outside_mem::{Failing, MemoryFiles, MemorySink, MemorySource};
use std::alloc::Global;
use vm_outside::Files;
use vm_types::Exit;

/// What a replay came to.
#[derive(Drop)]
pub struct Replayed {
    pub sink: MemorySink,
    pub files: MemoryFiles,
    pub status: u8,
}

/// Replays the case's script with pieces of at most so many bytes.
pub fn replay(alloc: Global, case: &Case, most: usize) -> Result<Replayed> {
    let given = &case.given;
    let source_fails = Failing::new(given.source_fails.clone()?);
    let sink_fails = Failing::new(given.sink_fails.clone()?);
    let mut out = Outside {
        source: MemorySource::new(case.script.clone()?, most, source_fails),
        sink: MemorySink::new(alloc, most, sink_fails),
        files: files_of(alloc, &given.files, &given.files_fail)?,
    };
    let exit = run_words(alloc, &given.words, &mut out);
    Ok(Replayed {
        sink: out.sink,
        files: out.files,
        status: exit.status(),
    })
}

// The command of these words, by their first.
fn run_words(
    alloc: Global,
    words: &[String],
    out: &mut Outside<MemorySource, MemorySink, MemoryFiles>,
) -> Exit {
    match words.first() {
        Some(word) if word.as_str() == "generate" => generate_main(words, out),
        Some(word) if word.as_str() == "run" => run_main(alloc, words, out),
        _ => replay_main(alloc, words, out),
    }
}

/// The files as they are at the start, of whose later calls those of these numbers fail. They are made by calls too, which are
/// not counted.
pub fn files_of(alloc: Global, files: &[Held], fails: &[u64]) -> Result<MemoryFiles> {
    let before = 2 * files.len() as u64;
    let mut calls = Vec::new(alloc);
    for call in fails {
        calls.push(before.saturating_add(*call))?;
    }
    let mut made = MemoryFiles::new(alloc, Failing::new(calls));
    for held in files {
        let content = held.content.as_deref().unwrap_or(&[]);
        if made.make(held.name.as_str()).is_err()
            || made.write_at(held.name.as_str(), 0, content).is_err()
        {
            bail!("there was no memory for the file {}", held.name);
        }
    }
    Ok(made)
}
