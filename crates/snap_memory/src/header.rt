// A header.
ghost use Rattle.std.specs.Prelude.{◌≡◌, ◌∷◌, ◌++◌, List, ℕ, IsTrue, IfOk, OnOk, length};
ghost use Rattle.file_format.specs.Kinds.{times};
ghost use Rattle.file_format.specs.Starts.{Decodes};
ghost use Rattle.snap_memory.specs.Slots.{slot};
ghost use Rattle.snap_memory.specs.Headers.{magic, header, behind_gate, are_slots, identity_of, is_valid, new_header, Begins, Found};

use crate::slot::{Slot, are_zero, free_slots, read_slots};
use file_format::{
    DecodeError, Input, ReadError, Stored, is_closed, is_numbered, is_other, read_fixed,
    read_zeros, write_fixed, write_items, write_zeros,
};
use std::alloc::{AllocError, Global};
use vm_types::Identity;

/// "RVFCMEM", and version 1.
const MAGIC: [u8; 11] = [82, 86, 70, 67, 77, 69, 77, 1, 0, 0, 0];

/// The header of a memory file.
#[derive(Drop)]
pub struct MemHeader {
    /// How many pages of 4,096 bytes follow it.
    pub pages: u32,
    /// The identity that the file was made with.
    pub made_as: Identity,
    /// Not 0 while a merge is unfinished.
    pub merging: u8,
    /// As they stand in the file. The leading open ones are merged; the first that isn't open may hold anything.
    pub slots: [Slot; 100],
}

#[tactic(auto, unfolding(crate::specs::Headers::header, crate::specs::Headers::behind_gate))]
impl Stored for MemHeader {
    ghost format = { header };

    fn write(&self, out: &mut Vec<u8>) -> Result<(), AllocError> {
        write_fixed(&[1], out)?;
        self.write_behind_gate(out)?;
        Ok(())
    }

    fn read(alloc: Global, input: &mut Input) -> Result<MemHeader, ReadError> {
        read_fixed(&[1], input)?;
        read_fixed(&MAGIC, input)?;
        let (pages, (made_as, merging)) = Stored::read(alloc, input)?;
        read_zeros(31, input)?;
        let slots = read_slots(alloc, input)?;
        read_zeros(832, input)?;
        Ok(MemHeader {
            pages,
            made_as,
            merging,
            slots,
        })
    }
}

#[tactic(auto, unfolding(file_format::specs::Kinds::times))]
fn write_slots(slots: &[Slot; 100], out: &mut Vec<u8>) -> Result<(), AllocError>
    ensures fits { OnOk result ((times 100 slot).Fits slots.now) }
    ensures bytes { OnOk result (out.new.items ≡ (times 100 slot).puts slots.now out.old.items) }
{
    write_items(slots, out)?;
    Ok(())
}

fn are_slots(slots: &[Slot]) -> bool
    ensures { result ≡ are_slots slots.now }
{
    let mut left = slots;
    while let Some((slot, others)) = left.split_first() {
        if slot.gate != 1 {
            return are_zero(others);
        }
        if !is_numbered(slot.identity) {
            return false;
        }
        left = others;
    }
    true
}

// The header at a front whose gate, magic and version were tested.
fn header_at(alloc: Global, bytes: &[u8]) -> Result<MemHeader, ReadError>
    ensures { Found bytes.now result }
{
    let mut input = Input::new(bytes);
    let header: MemHeader = Stored::read(alloc, &mut input)?;
    if header.is_valid() {
        Ok(header)
    } else {
        Err(ReadError::Bad)
    }
}

impl MemHeader {
    /// How many bytes it has.
    pub const SIZE: usize = 4096;

    #[tactic(auto, unfolding(crate::specs::Headers::behind_gate))]
    fn write_behind_gate(&self, out: &mut Vec<u8>) -> Result<(), AllocError>
        ensures fits { OnOk result (behind_gate.Fits self.now) }
        ensures bytes { OnOk result (out.new.items ≡ behind_gate.puts self.now out.old.items) }
    {
        write_fixed(&MAGIC, out)?;
        self.pages.write(out)?;
        self.made_as.write(out)?;
        self.merging.write(out)?;
        write_zeros(31, out)?;
        write_slots(&self.slots, out)?;
        write_zeros(832, out)?;
        Ok(())
    }

    /// The header of a new file of so many pages, into which nothing is merged.
    pub fn new(pages: u32, made_as: Identity) -> MemHeader
        ensures { result ≡ new_header pages made_as }
    {
        MemHeader {
            pages,
            made_as,
            merging: 0,
            slots: free_slots(),
        }
    }

    /// The header that a file's bytes begin with, or the first refusal that fits. What follows the header isn't looked
    /// at, and an unfinished merge is no refusal here: `merging` tells it.
    pub fn read(alloc: Global, bytes: &[u8]) -> Result<MemHeader, DecodeError>
        ensures { Decodes 4096 magic Begins bytes.now result }
    {
        if is_closed(bytes, MemHeader::SIZE) {
            return Err(DecodeError::GateClosed);
        }
        if is_other(bytes, &MAGIC) {
            return Err(DecodeError::WrongMagic);
        }
        match header_at(alloc, bytes) {
            Ok(header) => Ok(header),
            Err(ReadError::Bad) => Err(DecodeError::BadField),
            Err(ReadError::Memory) => Err(DecodeError::OutOfMemory),
        }
    }

    /// The header's bytes behind its gate. Behind an open one, and whatever follows them, `read` answers this header.
    pub fn encode_behind_gate(&self, alloc: Global) -> Result<Vec<u8>, AllocError>
        requires { IsTrue (is_valid self.now) }
        ensures begins { IfOk result (λ behind. (pages : List ℕ) → Begins (1 ∷ behind.items ++ pages) self.now) }
        ensures size { IfOk result (λ behind. length behind.items ≡ 4095) }
        ensures bytes { IfOk result (λ behind. 1 ∷ behind.items ≡ header.bytes self.now) }
    {
        let mut behind = Vec::new(alloc);
        self.write_behind_gate(&mut behind)?;
        Ok(behind)
    }

    /// Whether a file can have it: the numbers are from 1 to below 2^63, and the slots behind the first that isn't open
    /// are zeros.
    pub fn is_valid(&self) -> bool
        ensures { result ≡ is_valid self.now }
    {
        is_numbered(self.made_as) && are_slots(&self.slots)
    }

    /// The identity of what the file holds: that of the last of the leading open slots, or the one it was made with.
    pub fn identity(&self) -> Identity
        ensures { result ≡ identity_of self.now }
    {
        let mut identity = self.made_as;
        for slot in &self.slots {
            if slot.gate != 1 {
                return identity;
            }
            identity = slot.identity;
        }
        identity
    }
}
