// Files as another monitor writes them, merged in order and out of order.
use crate::showing::{Shown, text_of};
use outside_mem::{Failing, MemoryFiles, MemorySink};
use rebase_cli::{End, rebase_main};
use std::alloc::{AllocError, Global};
use std::{fs, io};
use vm_outside::{Failed, Files};

// How a memory file begins, a diff of version 1 with page 7, and a diff of version 2 with no page, of snapshots 1, 2 and 3 of lineage 5.
const WHOLE: [u8; 32] = *b"\x01RVFCMEM\x01\0\0\0\x08\0\0\0\x05\0\0\0\0\0\0\0\x01\0\0\0\0\0\0\0";

const FIRST: [u8; 68] =
    *b"\x01RVFCDIF\x01\0\0\0\x08\0\0\0\x05\0\0\0\0\0\0\0\x01\0\0\0\0\0\0\0\x05\0\0\0\0\0\0\0\x02\0\0\0\0\0\0\0\x01\0\0\0\0\0\0\0\0\0\0\0\0\0\0\0\x07\0\0\0";

const SECOND: [u8; 64] =
    *b"\x01RVFCDIF\x02\0\0\0\x08\0\0\0\x05\0\0\0\0\0\0\0\x02\0\0\0\0\0\0\0\x05\0\0\0\0\0\0\0\x03\0\0\0\0\0\0\0\0\0\0\0\0\0\0\0\0\0\0\0\0\0\0\0";

/// How many calls `fill` makes.
pub const FILLING: u64 = 8;

// The slots' identities and gates, the end of page 6 and page 7, and the file's end.
const BYTES: [usize; 11] = [
    64, 72, 80, 96, 104, 112, 113, 32_767, 32_768, 36_863, 36_864,
];

pub fn show(rt: &HostRuntime, shown: &mut Shown) -> io::Result<()> {
    let lines = fs::read_to_string(rt, "merges")?;
    let mut files = files_failing(rt.alloc(), 999)?;
    shown.show("merge: fill", &fill(&mut files));
    show_merges(rt.alloc(), &mut files, lines.as_str(), shown)?;
    show_bytes(&files, shown);
    Ok(())
}

// Each line has the base and the diff.
fn show_merges(
    alloc: Global,
    files: &mut MemoryFiles,
    lines: &str,
    shown: &mut Shown,
) -> Result<(), AllocError> {
    for line in lines.lines() {
        shown.text("merge: ");
        shown.text(line);
        let (base, diff) = line.split_once(' ').unwrap_or((line, ""));
        show_end(alloc, files, base, diff, shown)?;
    }
    Ok(())
}

fn show_end(
    alloc: Global,
    files: &mut MemoryFiles,
    base: &str,
    diff: &str,
    shown: &mut Shown,
) -> Result<(), AllocError> {
    let (end, out) = merge(alloc, files, base, diff)?;
    shown.show_two("", &end, &text_of(out.taken()));
    Ok(())
}

fn show_bytes(files: &MemoryFiles, shown: &mut Shown) {
    for at in BYTES {
        shown.text("merge: byte ");
        shown.value(&at);
        shown.show("", &byte_at(files, "m1", at));
    }
}

/// The byte of a file at this place.
pub fn byte_at(files: &MemoryFiles, name: &str, at: usize) -> Option<u8> {
    let file = files.find(name)?;
    file.get(at).copied()
}

/// The files m1, m2 and m3 of a memory of eight pages.
pub fn fill(files: &mut MemoryFiles) -> Result<(), Failed> {
    files.make("m1")?;
    files.write_at("m1", 0, &WHOLE)?;
    files.write_at("m1", 36_863, &[0])?;
    files.make("m2")?;
    files.write_at("m2", 0, &FIRST)?;
    files.write_at("m2", 68, &[0xa5; 4096])?;
    files.make("m3")?;
    files.write_at("m3", 0, &SECOND)
}

/// Files of which the call of this number fails, if there are so many.
pub fn files_failing(alloc: Global, call: u64) -> Result<MemoryFiles, AllocError> {
    let calls = [call].to_vec(alloc)?;
    Ok(MemoryFiles::new(alloc, Failing::new(calls)))
}

/// How the command to merge them ends, and what it writes.
pub fn merge(
    alloc: Global,
    files: &mut MemoryFiles,
    base: &str,
    diff: &str,
) -> Result<(End, MemorySink), AllocError> {
    run(
        alloc,
        files,
        &[
            "edit-memory",
            "rebase",
            "--memory-path",
            base,
            "--diff-path",
            diff,
        ],
    )
}

/// How the command of these words ends, and what it writes.
pub fn run(
    alloc: Global,
    files: &mut MemoryFiles,
    words: &[&str],
) -> Result<(End, MemorySink), AllocError> {
    let words = words_of(alloc, words)?;
    let mut out = MemorySink::new(alloc, 3, Failing::new(Vec::new(alloc)));
    let end = rebase_main(alloc, &words, files, &mut out);
    Ok((end, out))
}

fn words_of(alloc: Global, words: &[&str]) -> Result<Vec<String>, AllocError> {
    let mut list = Vec::new(alloc);
    for word in words {
        list.push(String::from_str(alloc, word)?)?;
    }
    Ok(list)
}
