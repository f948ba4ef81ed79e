// A header.
ghost use Rattle.std.specs.Prelude.{◌≡◌, ◌≤◌, ◌+◌, ◌*◌, ◌^◌, ◌∷◌, ◌++◌, List, ℕ, IsTrue, IfOk, OnOk, length};
ghost use Rattle.file_format.specs.Reading.{Takes};
ghost use Rattle.file_format.specs.Starts.{Decodes};
ghost use Rattle.file_format.specs.Versions.{version_of};
ghost use Rattle.file_format.specs.declared.version.Version.TheVariants.{Two};
ghost use Rattle.guest_memory.specs.Ram.{page_size};
ghost use Rattle.snap_diff.specs.Diffs.{Begins, Found, IsDiffFile, are_stored, copy_of, is_table, size_behind, table_bytes, table_size};
ghost use Rattle.snap_diff.specs.Headers.{are_names, behind_gate, counts, header, magic, names};

use crate::run::Run;
use file_format::{
    DecodeError, Input, ReadError, Stored, Version, is_closed, is_numbered, is_other, is_same,
    read_fixed, read_zeros, version_of, write_fixed, write_items, write_zeros,
};
use guest_memory::PAGE_SIZE;
use std::alloc::{AllocError, Global};
use vm_types::Identity;

/// "RVFCDIF".
const KIND: [u8; 7] = [82, 86, 70, 67, 68, 73, 70];

/// Which two snapshots a diff is between, and how many pages their memory has.
#[derive(Clone, Copy, Drop)]
pub struct DiffNames {
    /// How many pages of 4,096 bytes the memory has.
    pub pages: u32,
    /// The snapshot that the diff changes.
    pub parent: Identity,
    /// The snapshot that it makes of it.
    pub identity: Identity,
}

/// The header of a diff file.
#[derive(Clone, Copy, Drop)]
pub struct DiffHeader {
    pub version: Version,
    pub names: DiffNames,
    /// How many entries the table has.
    pub count: u32,
    /// How many pages are stored behind the table.
    pub stored: u32,
}

#[tactic(auto, unfolding(crate::specs::Headers::names))]
impl Stored for DiffNames {
    ghost format = { names };

    fn write(&self, out: &mut Vec<u8>) -> Result<(), AllocError> {
        self.pages.write(out)?;
        self.parent.write(out)?;
        self.identity.write(out)?;
        Ok(())
    }

    fn read(alloc: Global, input: &mut Input) -> Result<DiffNames, ReadError> {
        let (pages, (parent, identity)) = Stored::read(alloc, input)?;
        Ok(DiffNames {
            pages,
            parent,
            identity,
        })
    }
}

impl DiffNames {
    /// Whether a file can have them: the two snapshots have numbers from 1 to below 2^63, and are not one.
    pub fn is_valid(&self) -> bool
        ensures { result ≡ are_names self.now }
    {
        is_numbered(self.parent)
            && is_numbered(self.identity)
            && !is_same(self.parent, self.identity)
    }
}

// Kind and version.
fn magic(version: Version) -> [u8; 11]
    ensures { result ≡ magic version }
{
    match version {
        Version::One => [82, 86, 70, 67, 68, 73, 70, 1, 0, 0, 0],
        Version::Two => [82, 86, 70, 67, 68, 73, 70, 2, 0, 0, 0],
    }
}

// Those of version 2.
#[tactic(auto, unfolding(crate::specs::Headers::counts))]
fn write_counts(count: u32, stored: u32, out: &mut Vec<u8>) -> Result<(), AllocError>
    ensures fits { OnOk result ((counts Two).Fits (count, stored)) }
    ensures bytes { OnOk result (out.new.items ≡ (counts Two).puts (count, stored) out.old.items) }
{
    count.write(out)?;
    stored.write(out)?;
    write_zeros(8, out)?;
    Ok(())
}

#[tactic(auto, unfolding(crate::specs::Headers::counts))]
fn read_counts(alloc: Global, version: Version, input: &mut Input) -> Result<(u32, u32), ReadError>
    ensures { Takes (counts version) input.old input.new result }
{
    match version {
        Version::One => {
            let count = u32::read(alloc, input)?;
            read_zeros(12, input)?;
            Ok((count, count))
        }
        Version::Two => {
            let (count, stored) = Stored::read(alloc, input)?;
            read_zeros(8, input)?;
            Ok((count, stored))
        }
    }
}

#[tactic(auto, unfolding(crate::specs::Headers::behind_gate))]
fn read_behind_gate(alloc: Global, input: &mut Input) -> Result<DiffHeader, ReadError>
    ensures { Takes behind_gate input.old input.new result }
{
    read_fixed(&KIND, input)?;
    let (version, names) = Stored::read(alloc, input)?;
    let (count, stored) = read_counts(alloc, version, input)?;
    Ok(DiffHeader {
        version,
        names,
        count,
        stored,
    })
}

#[tactic(auto, unfolding(crate::specs::Headers::header))]
fn read_header(alloc: Global, input: &mut Input) -> Result<DiffHeader, ReadError>
    ensures { Takes header input.old input.new result }
{
    read_fixed(&[1], input)?;
    let header = read_behind_gate(alloc, input)?;
    Ok(header)
}

// The header at a front whose gate, magic and version were tested.
fn header_at(alloc: Global, bytes: &[u8]) -> Result<DiffHeader, ReadError>
    ensures { Found bytes.now result }
{
    let mut input = Input::new(bytes);
    let header = read_header(alloc, &mut input)?;
    if header.names.is_valid() {
        Ok(header)
    } else {
        Err(ReadError::Bad)
    }
}

impl DiffHeader {
    /// How many bytes it has.
    pub const SIZE: usize = 64;

    /// How many bytes of the file the table behind it has.
    pub fn table_size(&self) -> u64
        ensures size { result ≡ table_size self.now }
        ensures most { result ≤ 2 ^ 36 }
    {
        match self.version {
            Version::One => 4 * self.count as u64,
            Version::Two => 12 * self.count as u64,
        }
    }

    /// How many bytes of the file are behind it.
    pub fn size_behind(&self) -> u64
        ensures size { result ≡ size_behind self.now }
        ensures most { result ≤ 2 ^ 45 }
    {
        self.table_size() + PAGE_SIZE as u64 * self.stored as u64
    }

    #[tactic(auto, unfolding(crate::specs::Headers::behind_gate))]
    fn write_behind_gate(&self, out: &mut Vec<u8>) -> Result<(), AllocError>
        requires { self.now.version ≡ Two }
        ensures fits { OnOk result (behind_gate.Fits self.now) }
        ensures bytes { OnOk result (out.new.items ≡ behind_gate.puts self.now out.old.items) }
    {
        write_fixed(&KIND, out)?;
        self.version.write(out)?;
        self.names.write(out)?;
        write_counts(self.count, self.stored, out)?;
        Ok(())
    }

    /// The header that a file's bytes begin with, or the first refusal that fits. What follows the header isn't looked
    /// at.
    pub fn read(alloc: Global, bytes: &[u8]) -> Result<DiffHeader, DecodeError>
        ensures { Decodes 64 (magic (version_of bytes.now)) Begins bytes.now result }
    {
        if is_closed(bytes, DiffHeader::SIZE) {
            return Err(DecodeError::GateClosed);
        }
        if is_other(bytes, &magic(version_of(bytes))) {
            return Err(DecodeError::WrongMagic);
        }
        match header_at(alloc, bytes) {
            Ok(header) => Ok(header),
            Err(ReadError::Bad) => Err(DecodeError::BadField),
            Err(ReadError::Memory) => Err(DecodeError::OutOfMemory),
        }
    }

    /// The bytes of a file of version 2 between its gate and its pages: this header, and the table of these runs. The
    /// bytes of each stored page follow them.
    pub fn encode_behind_gate(&self, alloc: Global, runs: &[Run]) -> Result<Vec<u8>, AllocError>
        requires version { self.now.version ≡ Two }
        requires count { length runs.now ≡ self.now.count }
        requires names { IsTrue (are_names self.now.names) }
        requires table { IsTrue (is_table self.now runs.now) }
        ensures file { IfOk result (λ start. (stored : List ℕ) → length stored ≡ page_size * self.now.stored →
            IsTrue (are_stored Two self.now.stored stored) →
            IsDiffFile (1 ∷ start.items ++ stored)
            (copy_of (record { header = self.now; runs = runs.now; stored = stored }))) }
        ensures size { IfOk result (λ start. length start.items ≡ 63 + 12 * self.now.count) }
        ensures bytes { IfOk result (λ start. 1 ∷ start.items ≡ header.bytes self.now ++ table_bytes Two runs.now) }
    {
        let mut start = Vec::new(alloc);
        self.write_behind_gate(&mut start)?;
        write_items(runs, &mut start)?;
        Ok(start)
    }
}
