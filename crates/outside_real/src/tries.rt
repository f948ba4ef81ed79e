// Reads and writes that a signal may cut off before they begin.
ghost use Rattle.std.specs.Prelude.{◌≤◌, ◌<◌, length, IfOk};

use std::io;
use std::io::{ErrorKind, Read, Write};

/// How often a call is made that signals cut off. Then it counts as failed, so that no call runs forever.
const TRIES: u32 = 100;

/// One read. A count of 0 in a buffer that isn't empty is the end.
pub fn read_some<R: Read>(reader: &mut R, buf: &mut [u8]) -> io::Result<usize>
    ensures bound { IfOk result (λ n. n ≤ length buf.new) }
{
    for _ in 1..TRIES {
        match reader.read(buf) {
            Ok(count) => return Ok(count),
            Err(e) if e.kind() == ErrorKind::Interrupted => {}
            Err(e) => return Err(e),
        }
    }
    reader.read(buf)
}

/// Fills the buffer. That the end comes first is an error.
pub fn fill<R: Read>(reader: &mut R, buf: &mut [u8]) -> io::Result<()> {
    let mut filled = 0;
    while filled < buf.len() {
        let count = read_some(reader, &mut buf[filled..])?;
        if count == 0 {
            return Err(io::Error::from(ErrorKind::UnexpectedEof));
        }
        filled += count;
    }
    Ok(())
}

/// One write, of at least one byte where there are any. That none was taken is an error.
pub fn write_some<W: Write>(writer: &mut W, bytes: &[u8]) -> io::Result<usize>
    ensures bound { IfOk result (λ n. n ≤ length bytes.now) }
    ensures some { IfOk result (λ n. 0 < length bytes.now → 0 < n) }
{
    for _ in 0..TRIES {
        match writer.write(bytes) {
            Ok(0) if !bytes.is_empty() => break,
            Ok(count) => return Ok(count),
            Err(e) if e.kind() == ErrorKind::Interrupted => {}
            Err(e) => return Err(e),
        }
    }
    Err(io::Error::from(ErrorKind::WriteZero))
}

/// Writes all of the bytes.
pub fn write_whole<W: Write>(writer: &mut W, bytes: &[u8]) -> io::Result<()> {
    let mut sent = 0;
    while sent < bytes.len() {
        sent += write_some(writer, &bytes[sent..])?;
    }
    Ok(())
}

/// Hands on what the writer holds back.
pub fn flush<W: Write>(writer: &mut W) -> io::Result<()> {
    for _ in 1..TRIES {
        match writer.flush() {
            Ok(()) => return Ok(()),
            Err(e) if e.kind() == ErrorKind::Interrupted => {}
            Err(e) => return Err(e),
        }
    }
    writer.flush()
}
