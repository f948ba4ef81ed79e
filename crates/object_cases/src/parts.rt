// A disk's file as its guest writes it: when a sector is with the system, and what is done to the file's name meanwhile.
use crate::showing::{Shown, part_of};
use host_real::DiskFiles;
use std::{fs, io};
use vm_host::Disk;

const NAME: &str = "parts";

const OTHER: &str = "parts.moved";

pub fn show(rt: &HostRuntime, shown: &mut Shown) -> io::Result<()> {
    fs::write(rt, NAME, [7; 1088].as_slice())?;
    let mut disk = DiskFiles::new(rt);
    disk.attach(0, NAME);
    show_sector(rt, &mut disk, shown)?;
    show_cut(rt, &mut disk, shown)?;
    show_renamed(rt, &mut disk, shown)?;
    show_ends(&mut disk, shown);
    shown.show("disk's parts: failed", &disk.faults());
    fs::remove_file(rt, NAME)
}

// The sector is in the file with its last part.
fn show_sector(
    rt: &HostRuntime,
    disk: &mut DiskFiles<'_, HostRuntime>,
    shown: &mut Shown,
) -> io::Result<()> {
    for part in 0..7 {
        write(disk, (0, part), shown);
    }
    show_file("seven parts of a sector", rt, NAME, shown)?;
    write(disk, (0, 7), shown);
    show_file("and the last one", rt, NAME, shown)
}

// Or where the devices' turn ends, where a part comes that isn't the next one, at a read and at a flush.
fn show_cut(
    rt: &HostRuntime,
    disk: &mut DiskFiles<'_, HostRuntime>,
    shown: &mut Shown,
) -> io::Result<()> {
    write(disk, (1, 0), shown);
    show_file("a part", rt, NAME, shown)?;
    disk.settle();
    show_file("settled", rt, NAME, shown)?;
    write(disk, (1, 2), shown);
    write(disk, (1, 5), shown);
    show_file("a part and another one", rt, NAME, shown)?;
    show_read(disk, (1, 5), shown);
    show_file("read", rt, NAME, shown)?;
    write(disk, (1, 6), shown);
    shown.show("disk's parts: flush", &disk.flush(0));
    show_file("flushed", rt, NAME, shown)
}

// Another file stands under the name, or none; and then the disk is that one.
fn show_renamed(
    rt: &HostRuntime,
    disk: &mut DiskFiles<'_, HostRuntime>,
    shown: &mut Shown,
) -> io::Result<()> {
    write(disk, (1, 3), shown);
    fs::rename(rt, NAME, OTHER)?;
    fs::write(rt, NAME, [5; 640].as_slice())?;
    write(disk, (1, 4), shown);
    disk.settle();
    show_file("moved away", rt, OTHER, shown)?;
    show_file("in its place", rt, NAME, shown)?;
    fs::remove_file(rt, OTHER)?;
    write(disk, (0, 0), shown);
    show_read(disk, (0, 0), shown);
    disk.attach(0, "");
    disk.attach(0, NAME);
    show_read(disk, (0, 0), shown);
    Ok(())
}

// The file has ten parts.
fn show_ends(disk: &mut DiskFiles<'_, HostRuntime>, shown: &mut Shown) {
    show_read(disk, (1, 1), shown);
    show_read(disk, (1, 2), shown);
    write(disk, (1, 2), shown);
    show_read(disk, (1, 2), shown);
    show_read(disk, (9, 0), shown);
}

fn write(disk: &mut DiskFiles<'_, HostRuntime>, at: (u64, u8), shown: &mut Shown) {
    shown.text("disk's parts: write ");
    shown.value(&at);
    shown.show("", &disk.write(0, at.0, at.1, &[9; 64]));
}

fn show_read(disk: &mut DiskFiles<'_, HostRuntime>, at: (u64, u8), shown: &mut Shown) {
    shown.text("disk's parts: read ");
    shown.value(&at);
    shown.show("", &part_of(disk.read(0, at.0, at.1)));
}

// The first byte of each part that the file has.
fn show_file(done: &str, rt: &HostRuntime, name: &str, shown: &mut Shown) -> io::Result<()> {
    let bytes = fs::read(rt, name)?;
    shown.text("disk's parts: ");
    shown.text(done);
    shown.text(", in the file");
    for part in bytes.chunks(64) {
        shown.text(" ");
        shown.value(&part.first());
    }
    shown.text("\n");
    Ok(())
}
