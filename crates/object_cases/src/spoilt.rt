// Diffs of version 2 and bases that are bad at one place, merged.
use crate::merges::{files_failing, fill, merge};
use crate::showing::Shown;
use outside_mem::MemoryFiles;
use std::alloc::{AllocError, Global};
use vm_outside::{Failed, Files};

// The header and the table of a diff with the pages 3, 4 and 5, of which page 4 is zeros, of snapshots 3 and 4 of lineage 5.
const SOUND: [u8; 100] =
    *b"\x01RVFCDIF\x02\0\0\0\x08\0\0\0\x05\0\0\0\0\0\0\0\x03\0\0\0\0\0\0\0\x05\0\0\0\0\0\0\0\x04\0\0\0\0\0\0\0\x03\0\0\0\x02\0\0\0\0\0\0\0\0\0\0\0\x03\0\0\0\x01\0\0\0\x01\0\0\0\x04\0\0\0\x01\0\0\0\0\0\0\0\x05\0\0\0\x01\0\0\0\x01\0\0\0";

// A place, and the byte that is put there: the version; the numbers of pages and of both snapshots; both counts and the zeros behind them;
// the number of the first page, how many they are and their kind in each run; and the end. With two of them nothing but the parent is wrong.
const PLACES: [(u64, u8); 24] = [
    (8, 0),
    (8, 1),
    (8, 2),
    (8, 3),
    (12, 9),
    (24, 0),
    (40, 0),
    (40, 3),
    (47, 128),
    (48, 2),
    (52, 3),
    (56, 1),
    (63, 1),
    (64, 4),
    (68, 0),
    (71, 255),
    (72, 0),
    (72, 2),
    (76, 3),
    (84, 1),
    (88, 7),
    (88, 8),
    (92, 4),
    (8_292, 0),
];

// The same of the base: its gate, its magic and its version; how many pages it has; its number; the merging byte and the zeros behind it; the
// identity and the gate of the free slot, and a byte behind them; the slot behind it; the zeros behind all slots; and the end. With two of them
// nothing but the parent is wrong.
const BASE_PLACES: [(u64, u8); 18] = [
    (0, 0),
    (0, 2),
    (1, 88),
    (8, 2),
    (12, 9),
    (24, 0),
    (31, 128),
    (32, 1),
    (33, 1),
    (40, 1),
    (64, 7),
    (80, 1),
    (80, 2),
    (81, 1),
    (96, 1),
    (3_264, 1),
    (4_095, 1),
    (36_864, 0),
];

pub fn show(alloc: Global, shown: &mut Shown) -> Result<(), AllocError> {
    show_places(alloc, "m5", &PLACES, shown)?;
    shown.text("spoilt: page 3 is zeros");
    show_merge(alloc, "m5", 100, &[0; 4096], shown)?;
    shown.text("spoilt: page 5 is zeros");
    show_merge(alloc, "m5", 4_196, &[0; 4096], shown)?;
    shown.text("spoilt: the base\n");
    show_places(alloc, "m1", &BASE_PLACES, shown)
}

fn show_places(
    alloc: Global,
    name: &str,
    places: &[(u64, u8)],
    shown: &mut Shown,
) -> Result<(), AllocError> {
    for (at, byte) in places {
        shown.text("spoilt: byte ");
        shown.value(at);
        shown.text(" is ");
        shown.value(byte);
        show_merge(alloc, name, *at, &[*byte], shown)?;
    }
    Ok(())
}

fn show_merge(
    alloc: Global,
    name: &str,
    at: u64,
    bytes: &[u8],
    shown: &mut Shown,
) -> Result<(), AllocError> {
    let mut files = files_failing(alloc, 999)?;
    let filled = fill_spoilt(&mut files, name, at, bytes);
    let (end, _) = merge(alloc, &mut files, "m1", "m5")?;
    shown.show_two("", &filled, &end);
    Ok(())
}

fn fill_spoilt(files: &mut MemoryFiles, name: &str, at: u64, bytes: &[u8]) -> Result<(), Failed> {
    fill(files)?;
    files.make("m5")?;
    files.write_at("m5", 0, &SOUND)?;
    files.write_at("m5", 100, &[0xa3; 4096])?;
    files.write_at("m5", 4_196, &[0xa5; 4096])?;
    files.write_at(name, at, bytes)
}
