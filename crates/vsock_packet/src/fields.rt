// The fields of a header that was received.
ghost use Rattle.std.specs.Prelude.{◌≡◌, ◌≤◌, ◌+◌, length};
ghost use Rattle.le_fields.specs.Fields.{field_at};

use le_fields::{get16, get32, get64};

/// The value of two bytes that are there.
pub(crate) fn value16(bytes: &[u8], at: usize) -> u16
    requires { at + 2 ≤ length bytes.now }
    ensures { result ≡ field_at bytes.now at 2 }
{
    match get16(bytes, at) {
        Some(value) => value,
        None => 0,
    }
}

/// The value of four bytes that are there.
pub(crate) fn value32(bytes: &[u8], at: usize) -> u32
    requires { at + 4 ≤ length bytes.now }
    ensures { result ≡ field_at bytes.now at 4 }
{
    match get32(bytes, at) {
        Some(value) => value,
        None => 0,
    }
}

/// The value of eight bytes that are there.
pub(crate) fn value64(bytes: &[u8], at: usize) -> u64
    requires { at + 8 ≤ length bytes.now }
    ensures { result ≡ field_at bytes.now at 8 }
{
    match get64(bytes, at) {
        Some(value) => value,
        None => 0,
    }
}
