// Words that are no command, and some that are one of files that there aren't.
use crate::merges::files_failing;
use crate::showing::Shown;
use outside_mem::{Failing, MemorySink};
use rebase_cli::{End, rebase_main};
use std::alloc::{AllocError, Global};
use std::{fs, io};

pub fn show(rt: &HostRuntime, shown: &mut Shown) -> io::Result<()> {
    let lines = fs::read_to_string(rt, "commands")?;
    show_lines(rt.alloc(), lines.as_str(), shown)?;
    Ok(())
}

fn show_lines(alloc: Global, lines: &str, shown: &mut Shown) -> Result<(), AllocError> {
    for line in lines.lines() {
        shown.show(line, &end_of(alloc, line)?);
    }
    Ok(())
}

fn end_of(alloc: Global, line: &str) -> Result<End, AllocError> {
    let words = words_in(alloc, line)?;
    let mut files = files_failing(alloc, 999)?;
    let mut out = MemorySink::new(alloc, 80, Failing::new(Vec::new(alloc)));
    Ok(rebase_main(alloc, &words, &mut files, &mut out))
}

fn words_in(alloc: Global, line: &str) -> Result<Vec<String>, AllocError> {
    let mut words = Vec::new(alloc);
    for word in line.split(' ') {
        words.push(String::from_str(alloc, word)?)?;
    }
    Ok(words)
}
