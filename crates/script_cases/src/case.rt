// A case as its files say it.
use crate::given::{Given, given_from};
use crate::held::{Held, held_from};
use anyhow::{Context, Result};
use std::alloc::Global;
use std::io::ErrorKind;
use std::rt::Files;
use std::{fs, io};

/// A script, what is handed in beside it, and what it has to come to.
#[derive(Drop)]
pub struct Case {
    pub script: Vec<u8>,
    pub given: Given,
    pub wanted: Wanted,
}

/// What a replay has to come to.
#[derive(Drop)]
pub struct Wanted {
    pub output: Vec<u8>,
    pub status: u8,
    /// What the files hold at the end, all of them, where the case says so.
    pub files: Option<Vec<Held>>,
}

/// Reads the files of the case: `NAME.out`, and those of `NAME.script`, `.given`, `.status` and `.files` that it has.
pub fn read_case<R: Files + AllocGlobal>(rt: &R, name: &str) -> Result<Case> {
    let alloc = rt.alloc();
    let given = match read_if_there(rt, name, "given")? {
        Some(text) => given_from(alloc, str::from_utf8(&text)?)?,
        None => Given::new(alloc)?,
    };
    let script = match &given.script_of {
        Some(other) => read(rt, other.as_str(), "script")?,
        None => read(rt, name, "script")?,
    };
    let wanted = Wanted {
        output: read(rt, name, "out")?,
        status: match read_if_there(rt, name, "status")? {
            Some(text) => str::from_utf8(&text)?.trim_end().parse::<u8>()?,
            None => 0,
        },
        files: match read_if_there(rt, name, "files")? {
            Some(text) => Some(all_held(alloc, str::from_utf8(&text)?)?),
            None => None,
        },
    };
    Ok(Case {
        script,
        given,
        wanted,
    })
}

fn all_held(alloc: Global, text: &str) -> Result<Vec<Held>> {
    let mut files = Vec::new(alloc);
    for line in text.lines() {
        let held = held_from(alloc, line)?.context("a line of files that is none")?;
        files.push(held)?;
    }
    Ok(files)
}

fn read<R: Files + AllocGlobal>(rt: &R, name: &str, ending: &str) -> Result<Vec<u8>> {
    let path = format!(in rt.alloc(); "{name}.{ending}")?;
    let bytes = fs::read(rt, path.as_str()).context(format_args!("{path}"))?;
    Ok(bytes)
}

fn read_if_there<R: Files + AllocGlobal>(
    rt: &R,
    name: &str,
    ending: &str,
) -> io::Result<Option<Vec<u8>>> {
    let path = format!(in rt.alloc(); "{name}.{ending}")?;
    match fs::read(rt, path) {
        Ok(bytes) => Ok(Some(bytes)),
        Err(e) if e.kind() == ErrorKind::NotFound => Ok(None),
        Err(e) => Err(e),
    }
}
