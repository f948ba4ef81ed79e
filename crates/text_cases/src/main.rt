//! Prints stored cases with what they are read as or written as, for the gate to compare with `stdout`.
//!
//! A case is a line of a file of `data/`, with `\r`, `\n` and `\0` for those bytes, `|` where a text is cut in pieces,
//! and `COUNT*TEXT` for a piece that is a text so many times. Each of `TABLES` is such a file, and of `SERVICES`, whose
//! lines are `NOW WORD METHOD PATH HEADER VALUE`, one request after another. What is only written is in `written` and
//! `refused`. A new case is one more line there and one in `stdout`: it costs no proof.
#![tactic(auto)]

mod calls;
mod escapes;
mod lines;
mod metadata;
mod refused;
mod scripts;
mod streams;
mod words;
mod written;

use metadata_service::Service;
use metadata_store::{MetadataVersion, Store};
use std::alloc::{AllocError, Global};
use std::{fs, io};

/// What a case is.
#[derive(Clone, Copy, Drop)]
enum Kind {
    /// A line of a script.
    Line,
    /// A script that comes in pieces.
    Script,
    /// What comes on a connection.
    Stream,
    /// The same, looked at before it is taken.
    Peek,
    /// A method, a path and a body.
    Call,
}

const TABLES: [(&str, Kind); 5] = [
    ("lines", Kind::Line),
    ("scripts", Kind::Script),
    ("streams", Kind::Stream),
    ("peeks", Kind::Peek),
    ("calls", Kind::Call),
];

// What a service of each version is asked, one after another.
const SERVICES: [(&str, MetadataVersion); 3] = [
    ("looks", MetadataVersion::V1),
    ("turns", MetadataVersion::V2),
    ("tokens", MetadataVersion::V2),
];

fn main(rt: HostRuntime) -> io::Result<()> {
    let mut text = String::new(rt.alloc());
    add_tables(&rt, &mut text)?;
    print!(rt; "{text}")
}

fn add_tables(rt: &HostRuntime, text: &mut String) -> io::Result<()> {
    for (table, kind) in TABLES {
        add_table(rt, table, kind, text)?;
    }
    add_others(rt.alloc(), text)?;
    let store = metadata::stored(rt.alloc());
    for (table, version) in SERVICES {
        add_turns(rt, table, version, &store, text)?;
    }
    Ok(())
}

fn add_table(rt: &HostRuntime, table: &str, kind: Kind, text: &mut String) -> io::Result<()> {
    let cases = fs::read_to_string(rt, table)?;
    add_cases(rt.alloc(), kind, cases.as_str(), text)?;
    Ok(())
}

fn add_cases(alloc: Global, kind: Kind, cases: &str, text: &mut String) -> Result<(), AllocError> {
    for case in cases.lines() {
        text.push_str(case)?;
        text.push_str(" => ")?;
        add(alloc, kind, case, text)?;
        text.push('\n')?;
    }
    Ok(())
}

fn add(alloc: Global, kind: Kind, case: &str, text: &mut String) -> Result<(), AllocError> {
    match kind {
        Kind::Line => lines::add(alloc, case, text),
        Kind::Script => scripts::add(alloc, case, text),
        Kind::Stream => streams::add(alloc, case, text),
        Kind::Peek => streams::add_peeked(alloc, case, text),
        Kind::Call => calls::add(alloc, case, text),
    }
}

fn add_turns(
    rt: &HostRuntime,
    table: &str,
    version: MetadataVersion,
    store: &Store,
    text: &mut String,
) -> io::Result<()> {
    let cases = fs::read_to_string(rt, table)?;
    let mut service = Service::new(rt.alloc(), version);
    metadata::add_turns(rt.alloc(), &mut service, store, cases.as_str(), text)?;
    Ok(())
}

fn add_others(alloc: Global, text: &mut String) -> Result<(), AllocError> {
    written::add_stream(alloc, text)?;
    lines::add_others(alloc, text)?;
    refused::add(alloc, text)?;
    written::add(alloc, text)?;
    text.push('\n')
}
