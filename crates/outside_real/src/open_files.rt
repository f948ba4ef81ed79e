// The file that was read last and the one that was written last, each kept open for the next call.
use crate::size_limit::within_limit;
use crate::{named_file, tries};
use std::io::{ErrorKind, Seek, SeekFrom};
use std::{io, rt};

/// A file that is open. Its name is left out where there was no memory for it, and then it is opened again.
#[derive(Drop)]
struct Open<F: Drop> {
    name: Option<String>,
    file: F,
    /// When it was opened.
    length: u64,
}

impl<F: Drop> Open<F> {
    fn is_named(&self, name: &str) -> bool {
        match &self.name {
            Some(kept) => kept.as_str() == name,
            None => false,
        }
    }
}

#[derive(Drop)]
pub(crate) struct OpenFiles<F: Drop> {
    read: Option<Open<F>>,
    written: Option<Open<F>>,
    /// Else each is closed behind its call.
    keeps: bool,
}

impl<F: Drop> OpenFiles<F> {
    pub(crate) fn new(keeps: bool) -> OpenFiles<F> {
        OpenFiles {
            read: None,
            written: None,
            keeps,
        }
    }

    /// The next call looks at what stands under its name.
    pub(crate) fn close(&mut self) {
        self.read = None;
        self.written = None;
    }
}

/// Fills the buffer from this offset.
pub(crate) fn read_at<R: rt::Files + AllocGlobal>(
    rt: &R,
    files: &mut OpenFiles<R::File>,
    name: &str,
    at: u64,
    buf: &mut [u8],
) -> io::Result<()> {
    let Some(end) = at.checked_add(buf.len() as u64) else {
        return Err(io::Error::from(ErrorKind::UnexpectedEof));
    };
    let mut open = match files.read.take() {
        Some(open) if open.is_named(name) && end <= open.length => open,
        _ => to_read(rt, name)?,
    };
    // Some files of the system's own have no length, and reading them waits.
    if open.length < end {
        return Err(io::Error::from(ErrorKind::UnexpectedEof));
    }
    open.file.seek(SeekFrom::Start(at))?;
    tries::fill(&mut open.file, buf)?;
    if files.keeps {
        files.read = Some(open);
    }
    Ok(())
}

/// Writes all of the bytes at this offset. The system fills what lies between the old end and the
/// offset with zeros. A write past the process's limit on file sizes fails before any of it is made.
pub(crate) fn write_at<R: rt::Files + AllocGlobal>(
    rt: &R,
    files: &mut OpenFiles<R::File>,
    name: &str,
    at: u64,
    bytes: &[u8],
) -> io::Result<()> {
    let mut open = match files.written.take() {
        Some(open) if open.is_named(name) => open,
        _ => to_write(rt, name)?,
    };
    within_limit(at, bytes.len())?;
    open.file.seek(SeekFrom::Start(at))?;
    tries::write_whole(&mut open.file, bytes)?;
    if files.keeps {
        files.written = Some(open);
    }
    Ok(())
}

fn to_read<R: rt::Files + AllocGlobal>(rt: &R, name: &str) -> io::Result<Open<R::File>> {
    let (file, length) = named_file::to_read(rt, name)?;
    Ok(Open {
        name: String::from_str(rt.alloc(), name).ok(),
        file,
        length,
    })
}

fn to_write<R: rt::Files + AllocGlobal>(rt: &R, name: &str) -> io::Result<Open<R::File>> {
    let (file, length) = named_file::to_write(rt, name)?;
    Ok(Open {
        name: String::from_str(rt.alloc(), name).ok(),
        file,
        length,
    })
}
