// A queue, and the parts of a chain.
ghost use Rattle.std.specs.Prelude.{◌≡◌, ◌≤◌, ◌<◌, ◌++◌, ◌∷◌, length, [], slice_set, nat_le, if◌then◌else◌, Some, None};

use std::marker::Model;
use vm_types::Accepted;

/// A split queue (VIRTIO 1.2, 2.7): its size, the guest addresses of its three tables, how many pages of RAM
/// the guest has, and which of its features the driver accepted.
#[derive(Clone, Copy, Drop)]
pub struct Queue {
    pub descriptors: u64,
    pub available: u64,
    pub used: u64,
    pub size: u16,
    pub pages: u32,
    pub accepted: Accepted,
}

/// A table of descriptors that a descriptor names (2.7.5.3): where it is, and how many it has.
#[derive(Clone, Copy, Drop)]
pub struct Table {
    pub at: u64,
    pub count: u16,
}

/// Why a queue is broken, in the order in which it is judged.
#[derive(Clone, Copy, Drop)]
pub enum Why {
    /// The size is no power of two up to 256.
    Size,
    /// A table isn't aligned, or not inside RAM.
    Table,
    /// The available index is more than the size ahead.
    Ahead,
    /// A head or a next is not below the size.
    Index,
    /// A descriptor has INDIRECT set where that isn't accepted, or beside NEXT, or inside a table that one named.
    Indirect,
    /// The length of a table that a descriptor names is 0, no multiple of 16 or above 4,096.
    TableLength,
    /// Such a table isn't inside RAM.
    TableOutside,
    /// The next of an entry is not below its table's entries.
    Entry,
    /// A part's length is 0.
    Length,
    /// A part isn't inside RAM.
    Outside,
    /// A readable part follows a writable one.
    Order,
    /// A chain without such a table has more descriptors than the size, or one with it more than 256 parts.
    Long,
}

/// A part of a chain: a buffer of at least one byte inside RAM.
#[derive(Clone, Copy, Drop)]
pub struct Part {
    pub at: u64,
    pub len: u32,
    pub writable: bool,
}

/// A chain's parts, at most 256, which contracts see as a list.
#[derive(Drop)]
pub struct PartList {
    parts: [Part; 256],
    len: usize,
}

impl Model for PartList {
    ghost use Rattle.std.specs.Prelude.{◌≤◌, ◌≡◌, List, take, length};
    ghost use Rattle.vq_split.specs.declared.queue.Part.{Part};

    ghost Value = { List Part };

    ghost view = { λ p. take p.len p.parts };

    ghost invariant = { λ p. (p.len ≤ 256) × (length p.parts ≡ 256) };
}

impl PartList {
    /// No part.
    pub fn new() -> PartList
        ensures { result ≡ [] }
    {
        let none = Part {
            at: 0,
            len: 0,
            writable: false,
        };
        PartList {
            parts: [none; 256],
            len: 0,
        }
    }

    /// These parts. None where there are more than 256.
    pub fn copy_of(parts: &[Part]) -> Option<PartList>
        ensures { result ≡ (if nat_le (length parts.now) 256 then Some parts.now else None) }
    {
        if parts.len() > 256 {
            return None;
        }
        let none = Part {
            at: 0,
            len: 0,
            writable: false,
        };
        let mut list = [none; 256];
        list[..parts.len()].copy_from_slice(parts);
        Some(PartList {
            parts: list,
            len: parts.len(),
        })
    }

    /// No part any more.
    pub fn clear(&mut self)
        ensures { self.new ≡ [] }
    {
        self.len = 0;
    }

    /// One more part at the end.
    pub fn push(&mut self, part: Part)
        requires { length self.old < 256 }
        ensures { self.new ≡ self.old ++ part ∷ [] }
    {
        self.parts[self.len] = part;
        self.len += 1;
    }

    /// Another part in the place of one.
    pub fn set(&mut self, index: usize, part: Part)
        requires { index < length self.old }
        ensures { self.new ≡ slice_set self.old index part }
    {
        if index < self.len {
            self.parts[index] = part;
        }
    }

    pub fn as_slice(&self) -> &[Part]
        ensures parts { result.now ≡ self.now }
        ensures most { length result.now ≤ 256 }
    {
        &self.parts[..self.len]
    }
}
