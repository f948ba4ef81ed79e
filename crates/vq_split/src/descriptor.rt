// A descriptor, and what it has wrong.
ghost use Rattle.std.specs.Prelude.{◌≡◌, ◌≤◌, ◌<◌, length, false};
ghost use Rattle.std.specs.List.{list_any};
ghost use Rattle.vq_split.specs.declared.queue.Part.{Part};
ghost use Rattle.vq_split.specs.Chain.{descriptor_flaw, descriptor_of, entry_flaw, has_next, is_indirect, is_writable, part_flaw, table_flaw, table_of};

use crate::fields::{is_inside, value16, value32, value64};
use crate::queue::{Part, Queue, Table, Why};

/// A descriptor (VIRTIO 1.2, 2.7.5).
#[derive(Clone, Copy, Drop)]
pub struct Descriptor {
    pub at: u64,
    pub len: u32,
    pub flags: u16,
    pub next: u16,
}

impl Descriptor {
    pub fn from_bytes(bytes: &[u8]) -> Descriptor
        requires { length bytes.now ≡ 16 }
        ensures { result ≡ descriptor_of bytes.now }
    {
        Descriptor {
            at: value64(bytes, 0),
            len: value32(bytes, 8),
            flags: value16(bytes, 12),
            next: value16(bytes, 14),
        }
    }

    pub fn has_next(&self) -> bool
        ensures { result ≡ has_next self.now }
    {
        self.flags % 2 == 1
    }

    pub fn is_writable(&self) -> bool
        ensures { result ≡ is_writable self.now }
    {
        self.flags / 2 % 2 == 1
    }

    pub fn is_indirect(&self) -> bool
        ensures { result ≡ is_indirect self.now }
    {
        self.flags / 4 % 2 == 1
    }
}

impl Table {
    /// The table that a descriptor names.
    pub fn named(d: &Descriptor) -> Table
        requires { d.now.len ≤ 4096 }
        ensures { result ≡ table_of d.now }
    {
        Table {
            at: d.at,
            count: (d.len / 16) as u16,
        }
    }
}

fn has_writable(parts: &[Part]) -> bool
    ensures { result ≡ list_any (λ (part : Part). part.writable) parts.now }
{
    parts.iter().any(|part| part.writable)
}

// As a part behind these, in a chain of so many at most.
fn part_flaw(queue: &Queue, most: usize, parts: &[Part], d: &Descriptor) -> Option<Why>
    requires { length parts.now ≤ 256 }
    ensures { result ≡ part_flaw queue.now most parts.now d.now }
{
    if d.len == 0 {
        Some(Why::Length)
    } else if !is_inside(queue.pages, d.at, d.len as u64) {
        Some(Why::Outside)
    } else if !d.is_writable() && has_writable(parts) {
        Some(Why::Order)
    } else if d.has_next() && most <= parts.len() + 1 {
        Some(Why::Long)
    } else {
        None
    }
}

// As one that names a table of descriptors.
fn table_flaw(queue: &Queue, d: &Descriptor) -> Option<Why>
    ensures { result ≡ table_flaw queue.now d.now }
{
    if !queue.accepted.indirect || d.has_next() {
        Some(Why::Indirect)
    } else if d.len == 0 || d.len % 16 != 0 || 4096 < d.len {
        Some(Why::TableLength)
    } else if !is_inside(queue.pages, d.at, d.len as u64) {
        Some(Why::TableOutside)
    } else {
        None
    }
}

/// What a descriptor of the queue's table has wrong behind these parts: the first that fits.
pub fn descriptor_flaw(queue: &Queue, parts: &[Part], d: &Descriptor) -> Option<Why>
    requires { length parts.now ≤ 256 }
    ensures { result ≡ descriptor_flaw queue.now parts.now d.now }
{
    if d.has_next() && queue.size <= d.next {
        Some(Why::Index)
    } else if d.is_indirect() {
        table_flaw(queue, d)
    } else {
        part_flaw(queue, queue.size as usize, parts, d)
    }
}

/// What an entry of a table that a descriptor names has wrong behind these parts: the first that fits.
pub fn entry_flaw(queue: &Queue, table: &Table, parts: &[Part], d: &Descriptor) -> Option<Why>
    requires { length parts.now ≤ 256 }
    ensures { result ≡ entry_flaw queue.now table.now parts.now d.now }
{
    if d.is_indirect() {
        Some(Why::Indirect)
    } else if d.has_next() && table.count <= d.next {
        Some(Why::Entry)
    } else {
        part_flaw(queue, 256, parts, d)
    }
}
