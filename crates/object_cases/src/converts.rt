// Diffs that are written anew, and then merged.
use crate::merges::{FILLING, byte_at, files_failing, fill, merge, run};
use crate::showing::{Shown, text_of};
use outside_mem::{MemoryFiles, MemorySink};
use rebase_cli::End;
use std::alloc::{AllocError, Global};
use std::{fs, io};
use vm_outside::{Failed, Files};

// A diff of version 1 with the pages 3, 4 and 5, of snapshots 3 and 4 of lineage 5.
const THIRD: [u8; 76] =
    *b"\x01RVFCDIF\x01\0\0\0\x08\0\0\0\x05\0\0\0\0\0\0\0\x03\0\0\0\0\0\0\0\x05\0\0\0\0\0\0\0\x04\0\0\0\0\0\0\0\x03\0\0\0\0\0\0\0\0\0\0\0\0\0\0\0\x03\0\0\0\x04\0\0\0\x05\0\0\0";

// Of its file in version 2: the version, both counts, the three runs, both pages that are stored, and the file's end.
const BYTES: [usize; 16] = [
    8, 48, 52, 64, 68, 72, 76, 80, 84, 88, 92, 96, 100, 4_196, 8_291, 8_292,
];

// The first bytes of the pages 3, 4 and 5 of the base.
const PAGES: [usize; 3] = [16_384, 20_480, 24_576];

// How many calls `fill_all` makes more than `fill`.
const MORE: u64 = 5;

pub fn show(rt: &HostRuntime, shown: &mut Shown) -> io::Result<()> {
    let lines = fs::read_to_string(rt, "converts")?;
    let mut files = files_failing(rt.alloc(), 999)?;
    shown.show("convert: fill", &fill_all(&mut files));
    show_converts(rt.alloc(), &mut files, lines.as_str(), shown)?;
    show_bytes(&files, "c5", &BYTES, shown);
    show_merges(rt.alloc(), &mut files, shown)?;
    show_bytes(&files, "m1", &PAGES, shown);
    show_cut_off(rt.alloc(), shown)?;
    Ok(())
}

// Each line has the diff, and the file that it is written to.
fn show_converts(
    alloc: Global,
    files: &mut MemoryFiles,
    lines: &str,
    shown: &mut Shown,
) -> Result<(), AllocError> {
    for line in lines.lines() {
        shown.text("convert: ");
        shown.text(line);
        let (from, to) = line.split_once(' ').unwrap_or((line, ""));
        show_end(alloc, files, from, to, shown)?;
    }
    Ok(())
}

fn show_end(
    alloc: Global,
    files: &mut MemoryFiles,
    from: &str,
    to: &str,
    shown: &mut Shown,
) -> Result<(), AllocError> {
    let (end, out) = convert(alloc, files, from, to)?;
    shown.show_two("", &end, &text_of(out.taken()));
    Ok(())
}

fn show_bytes(files: &MemoryFiles, name: &str, places: &[usize], shown: &mut Shown) {
    for at in places {
        shown.text("convert: byte ");
        shown.value(at);
        shown.show("", &byte_at(files, name, *at));
    }
}

fn show_merges(
    alloc: Global,
    files: &mut MemoryFiles,
    shown: &mut Shown,
) -> Result<(), AllocError> {
    for diff in ["c2", "m3", "c5"] {
        let (end, _) = merge(alloc, files, "m1", diff)?;
        shown.text("convert: merge of ");
        shown.show(diff, &end);
    }
    Ok(())
}

// A convert that is cut off at each of its calls, what is left of its file, and the same convert again.
fn show_cut_off(alloc: Global, shown: &mut Shown) -> Result<(), AllocError> {
    for call in 0..12 {
        show_call(alloc, call, shown)?;
    }
    Ok(())
}

fn show_call(alloc: Global, call: u64, shown: &mut Shown) -> Result<(), AllocError> {
    let mut files = files_failing(alloc, FILLING.saturating_add(MORE).saturating_add(call))?;
    shown.text("convert: fill before ");
    shown.value(&call);
    shown.show("", &fill_all(&mut files));
    let cut = end_of(alloc, &mut files, "m5", "c5")?;
    let left = end_of(alloc, &mut files, "c5", "d5")?;
    let again = end_of(alloc, &mut files, "m5", "c5")?;
    shown.show("convert: cut off", &cut);
    shown.show_two("convert: what is left, again", &left, &again);
    Ok(())
}

fn end_of(alloc: Global, files: &mut MemoryFiles, from: &str, to: &str) -> Result<End, AllocError> {
    let (end, _) = convert(alloc, files, from, to)?;
    Ok(end)
}

// Those of a merge, of which the base has a byte in page 4, and the diff m5, whose page 4 is zeros.
fn fill_all(files: &mut MemoryFiles) -> Result<(), Failed> {
    fill(files)?;
    files.write_at("m1", 20_480, &[1])?;
    files.make("m5")?;
    files.write_at("m5", 0, &THIRD)?;
    files.write_at("m5", 76, &[0xa3; 4096])?;
    files.write_at("m5", 8_268, &[0xa5; 4096])
}

fn convert(
    alloc: Global,
    files: &mut MemoryFiles,
    from: &str,
    to: &str,
) -> Result<(End, MemorySink), AllocError> {
    run(
        alloc,
        files,
        &[
            "edit-memory",
            "convert",
            "--diff-path",
            from,
            "--out-path",
            to,
        ],
    )
}
