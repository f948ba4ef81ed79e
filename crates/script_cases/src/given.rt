// What is handed in beside a script, as the lines of a case say it.
use crate::held::{Held, held_from};
use anyhow::{Result, bail};
use std::alloc::{AllocError, Global};
use std::error::Error;
use std::str::FromStr;

/// The command's words, and how the objects in memory behave.
#[derive(Drop)]
pub struct Given {
    /// The case whose script is replayed, where it isn't this one's.
    pub script_of: Option<String>,
    /// The words of the command.
    pub words: Vec<String>,
    /// The most bytes that source and sink take at a time; the case is replayed with each.
    pub pieces: Vec<usize>,
    /// The calls that are to fail, counted from 0. On files the first is the first of the replay.
    pub source_fails: Vec<u64>,
    pub sink_fails: Vec<u64>,
    pub files_fail: Vec<u64>,
    /// What is there at the start.
    pub files: Vec<Held>,
}

impl Given {
    /// The command `replay` over objects that never fail, with no file, in whole pieces and in small ones.
    pub fn new(alloc: Global) -> Result<Given, AllocError> {
        Ok(Given {
            script_of: None,
            words: vec![in alloc; String::from_str(alloc, "replay")?]?,
            pieces: vec![in alloc; 4096, 7]?,
            source_fails: Vec::new(alloc),
            sink_fails: Vec::new(alloc),
            files_fail: Vec::new(alloc),
            files: Vec::new(alloc),
        })
    }
}

/// What the lines of a case's file `.given` say.
pub fn given_from(alloc: Global, text: &str) -> Result<Given> {
    let mut given = Given::new(alloc)?;
    for line in text.lines() {
        if !line.is_empty() && !line.starts_with('#') {
            take_line(alloc, &mut given, line)?;
        }
    }
    Ok(given)
}

fn take_line(alloc: Global, given: &mut Given, line: &str) -> Result<()> {
    if let Some(name) = line.strip_prefix("script ") {
        given.script_of = Some(String::from_str(alloc, name)?);
    } else if line == "no words" {
        given.words.clear();
    } else if let Some(word) = line.strip_prefix("word ") {
        given.words.push(String::from_str(alloc, word)?)?;
    } else if let Some(list) = line.strip_prefix("pieces ") {
        given.pieces = numbers(alloc, list)?;
    } else if let Some(list) = line.strip_prefix("source fails ") {
        given.source_fails = numbers(alloc, list)?;
    } else if let Some(list) = line.strip_prefix("sink fails ") {
        given.sink_fails = numbers(alloc, list)?;
    } else if let Some(list) = line.strip_prefix("files fail ") {
        given.files_fail = numbers(alloc, list)?;
    } else if let Some(held) = held_from(alloc, line)? {
        given.files.push(held)?;
    } else {
        bail!("no line of a case: {line}");
    }
    Ok(())
}

fn numbers<N: FromStr + Drop>(alloc: Global, list: &str) -> Result<Vec<N>>
where
    N::Err: Error,
{
    let mut numbers = Vec::new(alloc);
    for word in list.split(' ') {
        numbers.push(word.parse::<N>()?)?;
    }
    Ok(numbers)
}
