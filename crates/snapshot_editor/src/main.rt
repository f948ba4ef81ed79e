// The program that edits a snapshot's files: the real objects, the call, and the status that it answers.
#![tactic(auto)]

use outside_real::{Folder, Writing, fill_standard};
use rebase_cli::{End, rebase_main, refuse};
use std::io::ErrorKind;
use std::process::ExitCode;
use std::{env, io};

/// The status where a standard descriptor is closed and can't be opened either: that of a failed call.
const NO_OUTPUT: u8 = 4;

fn main(rt: HostRuntime) -> ExitCode {
    if fill_standard(&rt).is_err() {
        return ExitCode::from(NO_OUTPUT);
    }
    let mut files = Folder::keeping_open(&rt);
    let mut out = Writing::new(rt.stdout());
    let end = match words(&rt) {
        Ok(words) => rebase_main(rt.alloc(), &words, &mut files, &mut out),
        Err(e) => refuse(&mut out, why(&e)),
    };
    ExitCode::from(end.status())
}

// A word that is no text is none of a command's.
fn why(error: &io::Error) -> End {
    match error.kind() {
        ErrorKind::OutOfMemory => End::OutOfMemory,
        _ => End::Usage,
    }
}

// The words behind the program's name.
fn words(rt: &HostRuntime) -> io::Result<Vec<String>> {
    let mut words = Vec::new(rt.alloc());
    for word in env::args(rt)?.skip(1) {
        words.push(word)?;
    }
    Ok(words)
}
