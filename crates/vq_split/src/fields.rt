// What a read brings, and what is inside RAM.
ghost use Rattle.std.specs.Prelude.{◌≡◌, ◌≤◌, ◌+◌, length};
ghost use Rattle.le_fields.specs.Fields.{field_at};
ghost use Rattle.vq_split.specs.Chain.{index_in, is_inside, read_bytes};

use guest_memory::{PAGE_SIZE, is_ram};
use le_fields::{get16, get32, get64};
use vm_types::{Piece, Reply};

/// Whether these bytes are RAM, each of them, in a guest of this many pages, and their number has 32 bits.
pub fn is_inside(pages: u32, at: u64, len: u64) -> bool
    ensures { result ≡ is_inside pages at len }
{
    is_ram(PAGE_SIZE * pages as usize, at, len as usize) && len < 0x1_0000_0000
}

/// The bytes that a read of this many brings; zeros where it failed.
pub fn read_bytes(len: usize, reply: &Reply) -> Piece
    requires { len ≤ 64 }
    ensures { result ≡ read_bytes len reply.now }
{
    match reply {
        Reply::Bytes(piece) => *piece,
        _ => Piece::from_slice(&[0; 64][..len]),
    }
}

/// The value of two bytes of a field.
pub fn value16(bytes: &[u8], at: usize) -> u16
    requires { at + 2 ≤ length bytes.now }
    ensures { result ≡ field_at bytes.now at 2 }
{
    match get16(bytes, at) {
        Some(value) => value,
        None => 0,
    }
}

/// The index that a read of two bytes brings.
pub fn index_in(reply: &Reply) -> u16
    requires { length (read_bytes 2 reply.now) ≡ 2 }
    ensures { result ≡ index_in reply.now }
{
    value16(read_bytes(2, reply).as_slice(), 0)
}

/// The value of four bytes of a field.
pub fn value32(bytes: &[u8], at: usize) -> u32
    requires { at + 4 ≤ length bytes.now }
    ensures { result ≡ field_at bytes.now at 4 }
{
    match get32(bytes, at) {
        Some(value) => value,
        None => 0,
    }
}

/// The value of eight bytes of a field.
pub fn value64(bytes: &[u8], at: usize) -> u64
    requires { at + 8 ≤ length bytes.now }
    ensures { result ≡ field_at bytes.now at 8 }
{
    match get64(bytes, at) {
        Some(value) => value,
        None => 0,
    }
}
