// Disks in real files.
ghost use Rattle.std.specs.Prelude.{◌≡◌};

use crate::disk_locks::{DiskLocks, open_to_lock};
use disk_parts::DiskParts;
use outside_real::counted::counted;
use outside_real::folder_of;
use std::alloc::AllocError;
use std::fs::File;
use std::io::ErrorKind;
use std::{io, rt};
use vm_host::Disk;
use vm_outside::Failed;
use vm_types::TextList;

#[derive(Drop)]
struct AttachedDisk {
    device: u8,
    name: TextList,
    parts: DiskParts,
    /// Whether the folder's entry of the file is known to be on the disk.
    is_entered: bool,
}

/// A file for each device, under the name that was attached. It is opened when it is attached and stays open until another name is, so
/// that what is done to its name meanwhile changes nothing; one that couldn't be opened is opened at the next call. A call on a
/// device without one is a failure, and so is one on a device whose name there was no memory for.
///
/// Other processes see locks on the files: one that is attached is shared by as many as attach it, and from the first write
/// on it is this process's alone, for all of its devices. A call that can't have its lock is a failure, and the next one
/// asks again.
#[derive(Drop)]
pub struct DiskFiles<'a, R: rt::Files<File = File>> {
    rt: &'a R,
    disks: Vec<AttachedDisk>,
    locks: DiskLocks<File>,
    faults: u64,
}

impl<'a, R: rt::Files<File = File> + AllocGlobal> DiskFiles<'a, R> {
    pub fn new(rt: &'a R) -> DiskFiles<'a, R>
        ensures { (⟦<DiskFiles<'a, R> as Disk>⟧.known result).health.faults ≡ 0 }
    {
        DiskFiles {
            rt,
            disks: Vec::new(rt.alloc()),
            locks: DiskLocks::new(rt.alloc()),
            faults: 0,
        }
    }

    /// How many calls have failed. It stays at its last value.
    pub fn faults(&self) -> u64
        ensures { result ≡ (⟦<DiskFiles<'a, R> as Disk>⟧.known self.now).health.faults }
    {
        self.faults
    }
}

impl<'a, R: rt::Files<File = File> + AllocGlobal> Disk for DiskFiles<'a, R> {
    ghost use Rattle.std.specs.Prelude.{[]};
    ghost use Rattle.outside_real.specs.Counting.{untold};
    ghost use Rattle.vm_host.specs.declared.attached.Attached.TheVariants as attached;

    ghost known = { λ d. record {
      health = untold d.faults;
      files = λ n. attached.Nothing;
      held = λ n. [];
      calls = [];
    } };

    /// Under the name that the device has already nothing is done, and no memory is taken.
    fn attach(&mut self, device: u8, name: &str) {
        if is_attached(&self.disks, device, name) {
            return;
        }
        self.settle();
        self.disks.retain(|disk| disk.device != device);
        self.locks.forget(device);
        let _kept = keep(self.rt, &mut self.disks, device, name);
        // What isn't open now is opened at its first call.
        let _open = open(self.rt, &mut self.locks, &self.disks, device);
    }

    fn read(&mut self, device: u8, sector: u64, part: u8) -> Result<[u8; 64], Failed> {
        let place = Place {
            device,
            sector,
            part,
        };
        let done = read_part(self.rt, &mut self.locks, &mut self.disks, place);
        counted(&mut self.faults, done)
    }

    fn write(&mut self, device: u8, sector: u64, part: u8, bytes: &[u8; 64]) -> Result<(), Failed> {
        let place = Place {
            device,
            sector,
            part,
        };
        let done = write_part(self.rt, &mut self.locks, &mut self.disks, place, bytes);
        counted(&mut self.faults, done)
    }

    fn settle(&mut self) {
        for disk in self.disks.iter_mut() {
            disk.parts.forget_block();
            if disk.parts.has_begun() {
                let _kept = write_out(&mut self.locks, disk);
            }
        }
    }

    fn flush(&mut self, device: u8) -> Result<(), Failed> {
        let done = sync(self.rt, &mut self.locks, &mut self.disks, device);
        counted(&mut self.faults, done)
    }
}

/// A part of a sector of a device's disk.
#[derive(Clone, Copy, Drop)]
struct Place {
    device: u8,
    sector: u64,
    part: u8,
}

fn keep<R: AllocGlobal>(
    rt: &R,
    disks: &mut Vec<AttachedDisk>,
    device: u8,
    name: &str,
) -> Result<(), AllocError> {
    let name = TextList::copy_of(rt.alloc(), name)?;
    disks.push(AttachedDisk {
        device,
        name,
        parts: DiskParts::new(),
        is_entered: false,
    })?;
    Ok(())
}

fn is_attached(disks: &[AttachedDisk], device: u8, name: &str) -> bool {
    match disks.iter().find(|disk| disk.device == device) {
        Some(disk) => disk.name.as_str() == name,
        None => name.is_empty(),
    }
}

// The device's file is open, and shared where that can be had.
fn open<R: rt::Files<File = File>>(
    rt: &R,
    locks: &mut DiskLocks<File>,
    disks: &[AttachedDisk],
    device: u8,
) -> io::Result<()> {
    if locks.is_attached(device) {
        return Ok(());
    }
    let Some(disk) = disks.iter().find(|disk| disk.device == device) else {
        return Err(io::Error::from(ErrorKind::NotFound));
    };
    let (node, file) = open_to_lock(rt, disk.name.as_str())?;
    locks.attach(device, node, file)
}

fn disk_of(disks: &mut [AttachedDisk], device: u8) -> io::Result<&mut AttachedDisk> {
    match disks.iter_mut().find(|disk| disk.device == device) {
        Some(disk) => Ok(disk),
        None => Err(io::Error::from(ErrorKind::NotFound)),
    }
}

fn read_part<R: rt::Files<File = File>>(
    rt: &R,
    locks: &mut DiskLocks<File>,
    disks: &mut [AttachedDisk],
    place: Place,
) -> io::Result<[u8; 64]> {
    open(rt, locks, disks, place.device)?;
    let file = locks.to_read(place.device)?;
    let disk = disk_of(disks, place.device)?;
    disk.parts.read(file, place.sector, place.part)
}

// Two devices may have one file, so no block that was read is kept.
fn write_part<R: rt::Files<File = File>>(
    rt: &R,
    locks: &mut DiskLocks<File>,
    disks: &mut [AttachedDisk],
    place: Place,
    bytes: &[u8; 64],
) -> io::Result<()> {
    open(rt, locks, disks, place.device)?;
    let file = locks.to_write(place.device)?;
    for disk in disks.iter_mut() {
        disk.parts.forget_block();
    }
    let disk = disk_of(disks, place.device)?;
    disk.parts.write(file, place.sector, place.part, bytes)
}

fn write_out(locks: &mut DiskLocks<File>, disk: &mut AttachedDisk) -> io::Result<()> {
    let file = locks.to_write(disk.device)?;
    disk.parts.write_out(file)
}

// It waits until the disk has what was written, and the folder's entry of the file.
fn sync<R: rt::Files<File = File>>(
    rt: &R,
    locks: &mut DiskLocks<File>,
    disks: &mut [AttachedDisk],
    device: u8,
) -> io::Result<()> {
    open(rt, locks, disks, device)?;
    let file = locks.to_read(device)?;
    let disk = disk_of(disks, device)?;
    disk.parts.write_out(file)?;
    file.sync_all()?;
    if !disk.is_entered {
        File::open(rt, folder_of(disk.name.as_str()))?.sync_all()?;
        disk.is_entered = true;
    }
    Ok(())
}
