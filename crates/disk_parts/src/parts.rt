// How parts of a disk's sectors are read from its file and written there.
ghost use Rattle.std.specs.Prelude.{◌≡◌, ◌<◌, ◌↔◌, true, OnErr, OnOk};

use outside_real::size_limit::within_limit;
use std::io;
use std::io::ErrorKind;
use std::marker::Model;
use std::os::unix::fs::FileExt;
use vm_host::{PART, SECTOR};

// Bytes of a block that is read at once.
const BLOCK: usize = 4096;

/// The last part of a sector.
const LAST: u8 = 7;

/// How often a read is made that signals cut off.
const TRIES: u32 = 100;

/// Parts of one sector that were written one behind the other, and are to be written to the file together. There are none where
/// the count is 0.
#[derive(Clone, Copy, Drop)]
struct Begun {
    sector: u64,
    first: u8,
    count: u8,
    bytes: [u8; 512],
}

/// A block that was read, or the front of one in which the file ends. It begins at a multiple of its size.
#[derive(Clone, Copy, Drop)]
struct Block {
    start: u64,
    count: usize,
    bytes: [u8; 4096],
}

/// What is kept of a disk between its calls, which contracts see as how many parts are begun. Reads are of a whole block, which is
/// kept until `forget_block`. The parts of a sector are written together, with the last of them, so that a failure of it is that
/// call's; a part that isn't the next one of the sector has what was begun written before.
#[derive(Drop)]
pub struct DiskParts {
    begun: Begun,
    block: Block,
}

impl Model for DiskParts {
    ghost use Rattle.std.specs.Prelude.{ℕ, ◌≤◌};

    ghost Value = { ℕ };

    ghost view = { λ d. d.begun.count };

    ghost invariant = { λ d. d.begun.count ≤ 8 };
}

impl DiskParts {
    /// Nothing is begun.
    pub fn new() -> DiskParts
        ensures { result ≡ 0 }
    {
        DiskParts {
            begun: Begun {
                sector: 0,
                first: 0,
                count: 0,
                bytes: [0; 512],
            },
            block: Block {
                start: 0,
                count: 0,
                bytes: [0; 4096],
            },
        }
    }

    /// The bytes of a part. That the file ends before them is an error.
    pub fn read<F: FileExt>(&mut self, file: &F, sector: u64, part: u8) -> io::Result<[u8; 64]> {
        self.write_out(file)?;
        let place = place_of(sector, part);
        let start = place / BLOCK as u64 * BLOCK as u64;
        if self.block.count == 0 || self.block.start != start {
            self.read_block(file, start)?;
        }
        let from = (place - start) as usize;
        if from + PART > self.block.count.min(BLOCK) {
            return Err(io::Error::from(ErrorKind::UnexpectedEof));
        }
        let mut bytes = [0; 64];
        bytes.copy_from_slice(&self.block.bytes[from..from + PART]);
        Ok(bytes)
    }

    /// Writes over the bytes of a part, of which a sector has eight. Behind the last part the sector is with the system. After an
    /// `Err` nothing is begun.
    pub fn write<F: FileExt>(
        &mut self,
        file: &F,
        sector: u64,
        part: u8,
        bytes: &[u8; 64],
    ) -> io::Result<()>
        ensures last { part ≡ 7 → OnOk result (self.new ≡ 0) }
        ensures err { OnErr result (self.new ≡ 0) }
    {
        let done = self.take_and_write(file, sector, part, bytes);
        if done.is_err() {
            self.begun.count = 0;
        }
        done
    }

    fn take_and_write<F: FileExt>(
        &mut self,
        file: &F,
        sector: u64,
        part: u8,
        bytes: &[u8; 64],
    ) -> io::Result<()>
        ensures last { part ≡ 7 → OnOk result (self.new ≡ 0) }
    {
        self.block.count = 0;
        if !self.is_next(sector, part) {
            self.write_out(file)?;
            self.begun.sector = sector;
            self.begun.first = part;
        }
        self.take(bytes);
        let is_last = part == LAST;
        if is_last {
            self.write_out(file)?;
        }
        Ok(())
    }

    // Whether something is begun that this part goes on with.
    fn is_next(&self, sector: u64, part: u8) -> bool
        ensures { result ≡ true → self.now < 8 }
    {
        self.begun.count > 0
            && self.begun.count < 8
            && self.begun.sector == sector
            && self.begun.first as u64 + self.begun.count as u64 == part as u64
    }

    // The part behind what is begun.
    fn take(&mut self, bytes: &[u8; 64])
        requires { self.old < 8 }
    {
        let at = self.begun.count as usize * PART;
        self.begun.bytes[at..at + PART].copy_from_slice(bytes);
        self.begun.count += 1;
    }

    /// What is begun is with the system. After an `Err` it is begun still.
    pub fn write_out<F: FileExt>(&mut self, file: &F) -> io::Result<()>
        ensures ok { OnOk result (self.new ≡ 0) }
        ensures err { OnErr result (self.new ≡ self.old) }
    {
        match self.put(file) {
            Ok(()) => {
                self.begun.count = 0;
                Ok(())
            }
            Err(e) => Err(e),
        }
    }

    fn put<F: FileExt>(&self, file: &F) -> io::Result<()> {
        let count = self.begun.count as usize * PART;
        if count == 0 {
            return Ok(());
        }
        let at = place_of(self.begun.sector, self.begun.first);
        within_limit(at, count)?;
        file.write_all_at(&self.begun.bytes[..count], at)
    }

    /// Whether something is begun.
    pub fn has_begun(&self) -> bool
        ensures { (result ≡ true) ↔ (0 < self.now) }
    {
        self.begun.count > 0
    }

    /// What was read is read anew.
    pub fn forget_block(&mut self) {
        self.block.count = 0;
    }

    fn read_block<F: FileExt>(&mut self, file: &F, start: u64) -> io::Result<()> {
        self.block.count = 0;
        let count = read_front(file, start, &mut self.block.bytes)?;
        self.block.start = start;
        self.block.count = count;
        Ok(())
    }
}

// Fills the buffer from this offset on, up to the file's end, and answers how many bytes there are.
fn read_front<F: FileExt>(file: &F, start: u64, buf: &mut [u8]) -> io::Result<usize> {
    let mut filled = 0;
    for _try in 0..TRIES {
        if filled >= buf.len() {
            break;
        }
        match file.read_at(&mut buf[filled..], start.saturating_add(filled as u64)) {
            Ok(0) => break,
            Ok(count) => filled += count,
            Err(e) if e.kind() == ErrorKind::Interrupted => {}
            Err(e) => return Err(e),
        }
    }
    Ok(filled)
}

// An offset that no file has where it would be too large.
fn place_of(sector: u64, part: u8) -> u64 {
    sector
        .saturating_mul(SECTOR as u64)
        .saturating_add(part as u64 * PART as u64)
}
