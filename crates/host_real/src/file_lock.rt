// Locks on open files, which other processes see. None of them waits.
use crate::status::done;
use std::io;
use std::os::unix::io::AsRawFd;

/// So many bytes are locked, from the first one on: all that a file can have.
const ALL_BYTES: u64 = i64::MAX as u64;

/// Takes the lock that many may have on a file, where nobody has it alone. It is an error where it can't be had, and what
/// was had before stays.
pub(crate) fn share<F: AsRawFd>(file: &F) -> io::Result<()> {
    lock_bytes(file, os::RangeLock::Shared)
}

/// Takes the lock that one has alone, which is to be open for writing too. What was had before stays where it can't be had.
pub(crate) fn take_alone<F: AsRawFd>(file: &F) -> io::Result<()> {
    lock_bytes(file, os::RangeLock::Exclusive)
}

/// Takes the lock that one has alone on a folder.
pub(crate) fn take_folder<F: AsRawFd>(folder: &F) -> io::Result<()> {
    done(libc::flock(folder.as_raw_fd(), libc::LOCK_EX | libc::LOCK_NB))
}

fn lock_bytes<F: AsRawFd>(file: &F, kind: os::RangeLock) -> io::Result<()> {
    done(os::try_lock_range(file.as_raw_fd(), kind, 0, ALL_BYTES))
}
