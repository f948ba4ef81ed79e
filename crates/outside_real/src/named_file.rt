// Calls on one file under its name.
//
// What stands under the name is looked at before it is opened: opening a FIFO would wait for its other
// end, and a device may act on being opened. Another program that puts one there between the two calls
// isn't seen, since a file can't be opened without waiting.
use std::fs::{File, OpenFile, OpenOptions};
use std::io::ErrorKind;
use std::os::unix::fs::OpenOptionsExt;
use std::path::{AsPath, Path};
use std::{fs, io, rt};

/// The permissions of a file that its owner alone may read and write, or of a socket to which its owner alone may connect.
pub const OWNER_ALONE: u32 = 0o600;

/// The length of the file, where there is one. A directory or a special file is an error.
pub(crate) fn length<R: rt::Files>(rt: &R, name: &str) -> io::Result<Option<u64>> {
    match fs::metadata(rt, name) {
        Ok(seen) if seen.is_file() => Ok(Some(seen.len())),
        Ok(_) => Err(io::Error::from(ErrorKind::InvalidInput)),
        Err(e) if names_no_file(e.kind()) => Ok(None),
        Err(e) => Err(e),
    }
}

// Nothing has such a name: nothing was given it, what its folder is to be is no folder, or no name is so long.
fn names_no_file(kind: ErrorKind) -> bool {
    matches!(
        kind,
        ErrorKind::NotFound | ErrorKind::NotADirectory | ErrorKind::InvalidFilename
    )
}

// The same, where there has to be a file.
fn present<R: rt::Files>(rt: &R, name: &str) -> io::Result<u64> {
    match length(rt, name)? {
        Some(length) => Ok(length),
        None => Err(io::Error::from(ErrorKind::NotFound)),
    }
}

/// The file, open to be read, and its length.
pub(crate) fn to_read<R: rt::Files>(rt: &R, name: &str) -> io::Result<(R::File, u64)> {
    let length = present(rt, name)?;
    Ok((File::open(rt, name)?, length))
}

/// The file, open to be written over, and its length.
pub(crate) fn to_write<R: rt::Files>(rt: &R, name: &str) -> io::Result<(R::File, u64)> {
    let length = present(rt, name)?;
    Ok((OpenOptions::new().write(true).open(rt, name)?, length))
}

/// Has the file on its disk.
pub(crate) fn sync<R: rt::Files>(rt: &R, name: &str) -> io::Result<()> {
    present(rt, name)?;
    File::open(rt, name)?.sync_all()
}

/// Has the file's name in its folder on the disk, without which the file would be lost.
pub(crate) fn sync_entry<R: rt::Files>(rt: &R, name: &str) -> io::Result<()> {
    File::open(rt, folder_of(name))?.sync_all()
}

/// The folder that a file of this name stands in.
pub fn folder_of(name: &str) -> Path<'_> {
    match Path::new(name).parent() {
        Some(folder) if !folder.path_text().is_empty() => folder,
        _ => Path::new("."),
    }
}

/// Makes a file, or empties the one that is there, and has that on its disk. A new one may be read and written by its
/// owner alone: it may hold what a guest has in its memory.
pub(crate) fn make<R: rt::Files>(rt: &R, name: &str) -> io::Result<()> {
    length(rt, name)?;
    create_private(rt, name)?.sync_all()
}

/// A new file, or the one that is there without its bytes, open to be written. A new one is its owner's alone.
pub fn create_private<R: rt::Files>(rt: &R, name: &str) -> io::Result<R::File> {
    OpenOptions::new()
        .write(true)
        .create(true)
        .truncate(true)
        .mode(OWNER_ALONE)
        .open(rt, name)
}
