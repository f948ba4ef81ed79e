// The locks on the files of disks, which other processes see.
use crate::file_lock::{share, take_alone};
use std::alloc::Global;
use std::fs::{File, OpenOptions};
use std::io::ErrorKind;
use std::os::unix::fs::MetadataExt;
use std::os::unix::io::AsRawFd;
use std::{fs, io, rt};

/// What a file is, whatever its name: its device, and its number there.
type Node = (u64, u64);

/// What this process has of a file.
#[derive(Drop)]
enum Has {
    Nothing,
    /// The lock that many processes may have.
    Share,
    /// The lock that one process has alone.
    All,
}

/// A file that some device's disk is. It has one descriptor, by which it is locked, read and written, however many devices it is the
/// disk of.
#[derive(Drop)]
struct LockedFile<F: Drop> {
    node: Node,
    file: F,
    has: Has,
}

#[derive(Drop)]
struct LockedDisk {
    device: u8,
    node: Node,
}

/// The locks of all disks. Each file of a disk is locked from its attaching on until no device has it: many processes may
/// share it, and the first write makes it this process's alone. What couldn't be had is asked for again at the next call.
#[derive(Drop)]
pub(crate) struct DiskLocks<F: Drop> {
    disks: Vec<LockedDisk>,
    files: Vec<LockedFile<F>>,
}

impl<F: AsRawFd + Drop> DiskLocks<F> {
    pub(crate) fn new(alloc: Global) -> DiskLocks<F> {
        DiskLocks {
            disks: Vec::new(alloc),
            files: Vec::new(alloc),
        }
    }

    /// The device has no disk from now on.
    pub(crate) fn forget(&mut self, device: u8) {
        self.disks.retain(|disk| disk.device != device);
        let disks = &self.disks;
        self.files
            .retain(|file| disks.iter().any(|disk| disk.node == file.node));
    }

    /// The device's disk is this file, which was opened for it, and is shared where that can be had now.
    pub(crate) fn attach(&mut self, device: u8, node: Node, file: F) -> io::Result<()> {
        self.forget(device);
        self.disks.reserve(1)?;
        if !self.files.iter().any(|locked| locked.node == node) {
            let has = match share(&file) {
                Ok(()) => Has::Share,
                Err(_) => Has::Nothing,
            };
            self.files.push(LockedFile { node, file, has })?;
        }
        self.disks.push(LockedDisk { device, node })?;
        Ok(())
    }

    pub(crate) fn is_attached(&self, device: u8) -> bool {
        self.disks.iter().any(|disk| disk.device == device)
    }

    /// The file of the device's disk, to be read: an error where it is another process's alone.
    pub(crate) fn to_read(&mut self, device: u8) -> io::Result<&F> {
        let locked = self.file_of(device)?;
        if matches!(locked.has, Has::Nothing) {
            share(&locked.file)?;
            locked.has = Has::Share;
        }
        Ok(&locked.file)
    }

    /// The same, to be written: an error where another process shares the file or has it alone.
    pub(crate) fn to_write(&mut self, device: u8) -> io::Result<&F> {
        let locked = self.file_of(device)?;
        if !matches!(locked.has, Has::All) {
            take_alone(&locked.file)?;
            locked.has = Has::All;
        }
        Ok(&locked.file)
    }

    fn file_of(&mut self, device: u8) -> io::Result<&mut LockedFile<F>> {
        let Some(disk) = self.disks.iter().find(|disk| disk.device == device) else {
            return Err(io::Error::from(ErrorKind::NotFound));
        };
        let node = disk.node;
        match self.files.iter_mut().find(|locked| locked.node == node) {
            Some(locked) => Ok(locked),
            None => Err(io::Error::from(ErrorKind::NotFound)),
        }
    }
}

/// The regular file of this name, open to be locked, and what it is. A lock that one process has alone wants a file that is
/// open for writing too, and where it can't be opened so it can't be written either.
pub(crate) fn open_to_lock<R: rt::Files>(rt: &R, name: &str) -> io::Result<(Node, R::File)> {
    let seen = fs::metadata(rt, name)?;
    if !seen.is_file() {
        return Err(io::Error::from(ErrorKind::InvalidInput));
    }
    let both = OpenOptions::new().read(true).write(true).open(rt, name);
    let file = match both {
        Ok(file) => file,
        Err(_) => File::open(rt, name)?,
    };
    Ok(((seen.dev(), seen.ino()), file))
}
