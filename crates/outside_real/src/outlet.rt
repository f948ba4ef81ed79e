// What goes to standard output without waiting for who reads it.
ghost use Rattle.std.specs.Prelude.{◌≤◌, ◌<◌, length, IfOk};

use crate::polling::is_writable;
use crate::tries;
use crate::writing::send_some;
use std::io::{ErrorKind, Write};
use std::os::unix::io::AsRawFd;
use std::time::Duration;
use std::{io, rt};

/// A pipe that can be written takes so many bytes without a wait (PIPE_BUF of Linux).
const PIECE: usize = 4_096;

/// What is kept waits so long at most where it has to go out, in milliseconds.
const LAST_WAIT: u64 = 5_000;

/// So often a wait is begun that signals cut off.
const TRIES: u32 = 100;

/// A writer, and bytes that were taken and not written so far: a text, or an end of one.
#[derive(Drop)]
pub(crate) struct Outlet<'a, W, R> {
    rt: &'a R,
    writer: W,
    kept: Vec<u8>,
    /// Whether it was ever asked whether it is ready. Before that nothing is kept.
    is_asked: bool,
}

impl<'a, W: Write + AsRawFd + Drop, R: rt::Clock + AllocGlobal> Outlet<'a, W, R> {
    pub(crate) fn new(rt: &'a R, writer: W) -> Outlet<'a, W, R> {
        Outlet {
            rt,
            writer,
            kept: Vec::new(rt.alloc()),
            is_asked: false,
        }
    }

    /// Whether the next text is taken at once: where the one before is out, and there is room. A failure is left to the next write,
    /// which meets it.
    pub(crate) fn is_ready(&mut self) -> bool {
        self.is_asked = true;
        match self.send_kept() {
            Ok(()) => self.kept.is_empty() && self.kept.reserve(PIECE).is_ok(),
            Err(_) => true,
        }
    }

    /// Takes some of the bytes. What was kept before goes out first.
    pub(crate) fn take(&mut self, bytes: &[u8]) -> io::Result<usize>
        ensures bound { IfOk result (λ n. n ≤ length bytes.now) }
        ensures some { IfOk result (λ n. 0 < length bytes.now → 0 < n) }
    {
        if !self.is_asked {
            return send_some(&mut self.writer, bytes);
        }
        self.finish()?;
        let text = &bytes[..bytes.len().min(PIECE)];
        self.kept.extend_from_slice(text)?;
        self.send_kept()?;
        Ok(text.len())
    }

    /// Writes all that is kept, each part as soon as it can be. A part waits for five seconds at most. What can't be written is lost.
    pub(crate) fn finish(&mut self) -> io::Result<()> {
        let sent = self.send_all_kept();
        if sent.is_err() {
            self.kept.clear();
        }
        sent
    }

    fn send_all_kept(&mut self) -> io::Result<()> {
        for _ in 0..PIECE {
            if self.kept.is_empty() {
                return Ok(());
            }
            self.wait()?;
            self.send_piece()?;
        }
        Ok(())
    }

    // Writes what is kept, or a front of it, if nobody has to be waited for.
    fn send_kept(&mut self) -> io::Result<()> {
        if self.kept.is_empty() || !is_writable(self.writer.as_raw_fd(), Duration::ZERO) {
            return Ok(());
        }
        self.send_piece()
    }

    // Who shares the output may have made it one that never waits.
    fn send_piece(&mut self) -> io::Result<()> {
        let most = self.kept.len().min(PIECE);
        match tries::write_some(&mut self.writer, &self.kept[..most]) {
            Ok(count) => {
                self.kept.drain(..count);
                Ok(())
            }
            Err(e) if e.kind() == ErrorKind::WouldBlock => Ok(()),
            Err(e) => Err(e),
        }
    }

    // Waits until the output can be written.
    fn wait(&self) -> io::Result<()> {
        let end = self
            .rt
            .monotonic()?
            .saturating_add(Duration::from_millis(LAST_WAIT));
        for _ in 0..TRIES {
            let left = end.saturating_sub(self.rt.monotonic()?);
            if is_writable(self.writer.as_raw_fd(), left) {
                return Ok(());
            }
            if left.is_zero() {
                break;
            }
        }
        Err(io::Error::from(ErrorKind::TimedOut))
    }
}
