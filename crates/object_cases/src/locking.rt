// Disks of two processes over one file: both may read it, and the first that writes has it alone.
use crate::showing::{Shown, part_of};
use host_real::DiskFiles;
use outside_real::Folder;
use std::os::unix::fs::PermissionsExt;
use std::{fs, io};
use vm_host::Disk;
use vm_outside::Files;

const NAME: &str = "locked";

pub fn show(rt: &HostRuntime, shown: &mut Shown) -> io::Result<()> {
    fs::write(rt, NAME, [7; 512].as_slice())?;
    let mut one = DiskFiles::new(rt);
    let mut other = DiskFiles::new(rt);
    show_shared(&mut one, &mut other, shown);
    show_alone(&mut one, &mut other, shown);
    fs::remove_file(rt, NAME)?;
    show_made(rt, shown)
}

fn show_shared(
    one: &mut DiskFiles<'_, HostRuntime>,
    other: &mut DiskFiles<'_, HostRuntime>,
    shown: &mut Shown,
) {
    one.attach(0, NAME);
    other.attach(0, NAME);
    show_read("one", one, 0, shown);
    show_read("the other", other, 0, shown);
    show_write("one", one, 0, shown);
}

// The other one has no disk for a while.
fn show_alone(
    one: &mut DiskFiles<'_, HostRuntime>,
    other: &mut DiskFiles<'_, HostRuntime>,
    shown: &mut Shown,
) {
    other.attach(0, "");
    show_write("one", one, 0, shown);
    one.attach(1, NAME);
    show_write("its second device", one, 1, shown);
    show_read("its first device", one, 0, shown);
    other.attach(0, NAME);
    show_read("the other", other, 0, shown);
    one.attach(0, "");
    one.attach(1, "");
    show_read("the other", other, 0, shown);
    show_write("the other", other, 0, shown);
}

fn show_read(who: &str, disk: &mut DiskFiles<'_, HostRuntime>, device: u8, shown: &mut Shown) {
    shown.text("locked disk: reads ");
    shown.value(&who);
    shown.show("", &part_of(disk.read(device, 0, 0)));
}

fn show_write(who: &str, disk: &mut DiskFiles<'_, HostRuntime>, device: u8, shown: &mut Shown) {
    shown.text("locked disk: writes ");
    shown.value(&who);
    shown.show("", &disk.write(device, 0, 0, &[9; 64]));
}

// A file that is made is its owner's alone.
fn show_made(rt: &HostRuntime, shown: &mut Shown) -> io::Result<()> {
    shown.show("made file: make", &Folder::new(rt).make(NAME));
    let mode = fs::metadata(rt, NAME)?.permissions().mode() & 0o777;
    shown.show("made file: its owner's alone", &(mode == 0o600));
    fs::remove_file(rt, NAME)
}
