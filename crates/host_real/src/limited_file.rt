// A file that doesn't grow past the process's limit on sizes.
use outside_real::size_limit::within_limit;
use std::fs::OpenFile;
use std::io;
use std::io::Write;

/// An empty file that nobody else writes. A write that would take it past the limit is an error, and none of it is made. A
/// file that isn't a regular one has no limit.
#[derive(Drop)]
pub(crate) struct LimitedFile<F: Drop> {
    file: F,
    written: u64,
    is_limited: bool,
}

impl<F: OpenFile + Drop> LimitedFile<F> {
    pub(crate) fn new(file: F) -> io::Result<LimitedFile<F>> {
        let is_limited = file.metadata()?.is_file();
        Ok(LimitedFile {
            file,
            written: 0,
            is_limited,
        })
    }
}

impl<F: Write + Drop> Write for LimitedFile<F> {
    fn write(&mut self, buf: &[u8]) -> io::Result<usize> {
        if self.is_limited {
            within_limit(self.written, buf.len())?;
        }
        let count = self.file.write(buf)?;
        self.written = self.written.saturating_add(count as u64);
        Ok(count)
    }

    fn flush(&mut self) -> io::Result<()> {
        self.file.flush()
    }
}
