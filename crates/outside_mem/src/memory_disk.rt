// Disks in memory.
ghost use Rattle.std.specs.Prelude.{◌≡◌, [], true, IfSome, IsFalse, IsTrue};
ghost use Rattle.outside_mem.specs.Devices.{disk_in};
ghost use Rattle.vm_host.specs.declared.attached.Attached.TheVariants as attached;
ghost use Rattle.vm_host.specs.Devices.{ChangesAt};
ghost use Rattle.vm_host.specs.Storing.{IsPart, WritesPart, place_of};

use crate::failing::Failing;
use crate::memory_files::read_bytes;
use crate::names::Names;
use std::alloc::Global;
use vm_host::{Attached, Disk, DiskCall, PART, SECTOR};
use vm_outside::Failed;
use vm_types::{ByteList, Piece};

/// Disks of the devices from number 0 on, which grow where they are written past their end. A call on a device without
/// a disk is a failure, and that there is no memory too. A failed call changes nothing, and isn't among those that were made.
#[derive(Drop)]
pub struct MemoryDisk {
    disks: Vec<ByteList>,
    files: Names,
    calls: Vec<DiskCall>,
    failing: Failing,
}

impl MemoryDisk {
    /// No file is attached so far.
    pub fn new(alloc: Global, disks: Vec<ByteList>, failing: Failing) -> MemoryDisk
        ensures { ⟦<MemoryDisk as Disk>⟧.known result ≡ record {
          health = record { tells = true; faults = failing };
          files = λ _. attached.Nothing;
          held = disk_in disks.items;
          calls = [];
        } }
    {
        MemoryDisk {
            disks,
            files: Names::new(alloc),
            calls: Vec::new(alloc),
            failing,
        }
    }

    /// The file that the device's disk is.
    pub fn file(&self, device: u8) -> &Attached
        ensures { result.now ≡ (⟦<MemoryDisk as Disk>⟧.known self.now).files device }
    {
        self.files.at(device)
    }

    /// The writes and flushes that were made, the oldest first.
    pub fn calls(&self) -> &[DiskCall]
        ensures { result.now ≡ (⟦<MemoryDisk as Disk>⟧.known self.now).calls }
    {
        &self.calls
    }

    /// How many calls have failed.
    pub fn faults(&self) -> u64
        ensures { result ≡ (⟦<MemoryDisk as Disk>⟧.known self.now).health.faults }
    {
        self.failing.faults()
    }
}

impl Disk for MemoryDisk {
    ghost use Rattle.std.specs.Prelude.{true};
    ghost use Rattle.outside_mem.specs.Devices.{disk_in, names_of};

    ghost known = { λ d. record {
      health = record { tells = true; faults = d.failing };
      files = names_of d.files;
      held = disk_in d.disks.items;
      calls = d.calls.items;
    } };

    /// The disks hold what they held.
    fn attach(&mut self, device: u8, name: &str) {
        self.files.attach(device, name);
    }

    fn read(&mut self, device: u8, sector: u64, part: u8) -> Result<[u8; 64], Failed> {
        if self.failing.fails() {
            return Err(Failed);
        }
        let mut bytes = [0; 64];
        if !read_part(&self.disks, device as usize, sector, part, &mut bytes) {
            self.failing.count();
            return Err(Failed);
        }
        Ok(bytes)
    }

    fn write(&mut self, device: u8, sector: u64, part: u8, bytes: &[u8; 64]) -> Result<(), Failed> {
        if self.failing.fails() {
            return Err(Failed);
        }
        if self.calls.reserve(1).is_err()
            || !write_part(&mut self.disks, device as usize, sector, part, bytes)
        {
            self.failing.count();
            return Err(Failed);
        }
        self.calls.push_reserved(DiskCall::Wrote {
            device,
            sector,
            part,
            piece: Piece::from_slice(bytes),
        });
        Ok(())
    }

    fn settle(&mut self) {}

    fn flush(&mut self, device: u8) -> Result<(), Failed> {
        if self.failing.fails() {
            return Err(Failed);
        }
        if self.calls.push(DiskCall::Flushed { device }).is_err() {
            self.failing.count();
            return Err(Failed);
        }
        Ok(())
    }
}

// Where a part begins, if any disk is so long.
fn begin_of(sector: u64, part: u8) -> Option<usize>
    ensures { IfSome result (λ place. place ≡ place_of sector part) }
{
    let begin = (sector as usize).checked_mul(SECTOR)?;
    begin.checked_add(part as usize * PART)
}

// Fills `bytes` with a part, or the disk ends before.
fn read_part(disks: &[ByteList], device: usize, sector: u64, part: u8, bytes: &mut [u8]) -> bool
    ensures { IsTrue result → IsPart (disk_in disks.now device) sector part bytes.new }
{
    let (Some(disk), Some(begin)) = (disks.get(device), begin_of(sector, part)) else {
        return false;
    };
    read_bytes(disk.as_slice(), begin as u64, bytes)
}

// Writes over a part, or changes nothing.
fn write_part(disks: &mut Vec<ByteList>, device: usize, sector: u64, part: u8, bytes: &[u8]) -> bool
    ensures written { IsTrue result →
        ChangesAt (disk_in disks.old.items) device (disk_in disks.new.items) (WritesPart sector part bytes.now) }
    ensures kept { IsFalse result → disks.new.items ≡ disks.old.items }
{
    let Some(begin) = begin_of(sector, part) else {
        return false;
    };
    if device >= disks.len() {
        return false;
    }
    disks[device].write(begin, bytes).is_ok()
}
