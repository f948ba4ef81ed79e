// Words in bytes, of each width.
ghost use Rattle.std.specs.Prelude.{◌≡◌, ◌+◌, ◌≤◌, length, take, drop};
ghost use Rattle.guest_memory.specs.Memory.{put_at};
ghost use Rattle.le_fields.specs.Fields.{bytes_of};
ghost use Rattle.rv_rows.specs.Loads.{width_bytes};

use le_fields::{put16, put32, put64};
use rv_rows::Width;

#[inline(always)]
fn half_at(bytes: &[u8], offset: usize) -> u16
    requires { offset + 2 ≤ length bytes.now }
    ensures { bytes_of 2 result ≡ take 2 (drop offset bytes.now) }
{
    let mut word = [0; 2];
    word.copy_from_slice(&bytes[offset..offset + 2]);
    u16::from_le_bytes(word)
}

/// The word of four bytes at an offset, the lowest byte first.
#[inline(always)]
pub fn single_at(bytes: &[u8], offset: usize) -> u32
    requires { offset + 4 ≤ length bytes.now }
    ensures { bytes_of 4 result ≡ take 4 (drop offset bytes.now) }
{
    let mut word = [0; 4];
    word.copy_from_slice(&bytes[offset..offset + 4]);
    u32::from_le_bytes(word)
}

#[inline(always)]
fn double_at(bytes: &[u8], offset: usize) -> u64
    requires { offset + 8 ≤ length bytes.now }
    ensures { bytes_of 8 result ≡ take 8 (drop offset bytes.now) }
{
    let mut word = [0; 8];
    word.copy_from_slice(&bytes[offset..offset + 8]);
    u64::from_le_bytes(word)
}

/// The word of this width at an offset, the lowest byte first.
#[inline(always)]
pub fn word_in(bytes: &[u8], offset: usize, width: Width) -> u64
    requires { offset + width_bytes width ≤ length bytes.now }
    ensures { bytes_of (width_bytes width) result ≡ take (width_bytes width) (drop offset bytes.now) }
{
    match width {
        Width::Byte => bytes[offset] as u64,
        Width::Half => half_at(bytes, offset) as u64,
        Width::Word => single_at(bytes, offset) as u64,
        Width::Double => double_at(bytes, offset),
    }
}

/// The low bytes of a word come in the place of as many at an offset, the lowest first.
#[inline(always)]
pub fn put_word(bytes: &mut [u8], offset: usize, word: u64, width: Width)
    requires { offset + width_bytes width ≤ length bytes.old }
    ensures { bytes.new ≡ put_at bytes.old offset (bytes_of (width_bytes width) word) }
{
    match width {
        Width::Byte => bytes[offset] = (word % 0x100) as u8,
        Width::Half => put16(bytes, offset, (word % 0x1_0000) as u16),
        Width::Word => put32(bytes, offset, (word % 0x1_0000_0000) as u32),
        Width::Double => put64(bytes, offset, word),
    }
}
