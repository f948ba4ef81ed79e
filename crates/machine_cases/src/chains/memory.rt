// A small guest memory.
use vm_types::{Piece, Reply};

pub const RAM: u64 = 0x8000_0000;

pub const DESCRIPTORS: u64 = RAM;

pub const AVAILABLE: u64 = RAM + 0x1000;

pub const USED: u64 = RAM + 0x2000;

pub const HEADER: u64 = RAM + 0x3000;

pub const PLACE: u64 = RAM + 0x4000;

pub const STATUS: u64 = RAM + 0x5000;

pub const PAGES: u32 = 6;

pub const SIZE: usize = 0x6000;

/// So many bytes, where they are all inside.
pub fn part(memory: &[u8], at: u64, len: usize) -> Option<&[u8]> {
    let start = at.checked_sub(RAM)? as usize;
    let end = start.checked_add(len)?;
    memory.get(start..end)
}

/// Puts bytes where they are all inside.
pub fn put(memory: &mut [u8], at: u64, bytes: &[u8]) {
    if at < RAM {
        return;
    }
    let start = (at - RAM) as usize;
    if start <= memory.len() && bytes.len() <= memory.len() - start {
        memory[start..start + bytes.len()].copy_from_slice(bytes);
    }
}

/// The bytes of a read.
pub fn read(memory: &[u8], at: u64, len: usize) -> Reply {
    match part(memory, at, len) {
        Some(bytes) => {
            if bytes.len() <= 64 {
                Reply::Bytes(Piece::from_slice(bytes))
            } else {
                Reply::AccessFault
            }
        }
        None => Reply::AccessFault,
    }
}
