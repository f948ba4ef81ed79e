// Bytes of RAM.
ghost use Rattle.std.specs.Prelude.{◌≡◌, ◌+◌, ◌≤◌, length};
ghost use Rattle.guest_memory.specs.Memory.{put_at};
ghost use Rattle.guest_memory.specs.Ram as ram;

use vm_types::GuestAddr;

/// Where RAM starts.
pub const RAM_START: GuestAddr = 0x8000_0000;

/// How many bytes a page has.
pub const PAGE_SIZE: usize = 4096;

/// Whether all of these bytes are RAM, in a memory of this size.
pub fn is_ram(size: usize, at: GuestAddr, len: usize) -> bool
    ensures { result ≡ ram.is_ram size at len }
{
    at >= RAM_START && (at - RAM_START) as u128 + len as u128 <= size as u128
}

/// Other bytes in the place of as many.
pub fn put(bytes: &mut [u8], offset: usize, piece: &[u8])
    requires { offset + length piece.now ≤ length bytes.old }
    ensures { bytes.new ≡ put_at bytes.old offset piece.now }
{
    bytes[offset..offset + piece.len()].copy_from_slice(piece);
}
