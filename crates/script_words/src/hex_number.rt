// Words of 64 bits and addresses, in hexadecimal digits.
ghost use Rattle.std.specs.Prelude.{◌≡◌, ◌<◌, true, IfOk};
ghost use Rattle.std.specs.Char.{digit_value};
ghost use Rattle.std.specs.List.{list_all};
ghost use Rattle.std.specs.Str.Parse.{digits_value};
ghost use Rattle.script_words.specs.Numbers.{address_of, is_address, is_hex, word_by, word_of};

use crate::hex_bytes::bytes_from;
use std::alloc::{AllocError, Global};

/// The word that sixteen lower-case digits write.
pub fn word_from(alloc: Global, text: &[u8]) -> Result<Option<u64>, AllocError>
    ensures { IfOk result (λ word. word ≡ word_of text.now) }
{
    match bytes_from(alloc, text)? {
        Some(bytes) => Ok(word_by(bytes.as_slice())),
        None => Ok(None),
    }
}

fn word_by(bytes: &[u8]) -> Option<u64>
    ensures { result ≡ word_by bytes.now }
{
    match bytes {
        [a, b, c, d, e, f, g, h] => Some(u64::from_be_bytes([*a, *b, *c, *d, *e, *f, *g, *h])),
        _ => None,
    }
}

/// The address that one to sixteen digits write, in either case.
pub fn address_from(text: &[u8]) -> Option<u64>
    ensures { result ≡ address_of text.now }
{
    if is_address(text) {
        Some(address_value(text))
    } else {
        None
    }
}

fn is_address(text: &[u8]) -> bool
    ensures { result ≡ is_address text.now }
{
    1 <= text.len() && text.len() <= 16 && are_hex(text)
}

fn are_hex(text: &[u8]) -> bool
    ensures { result ≡ list_all is_hex text.now }
{
    text.iter().all(|c| is_hex(*c))
}

fn is_hex(c: u8) -> bool
    ensures { result ≡ is_hex c }
{
    (b'0' <= c && c <= b'9') || (b'A' <= c && c <= b'F') || (b'a' <= c && c <= b'f')
}

fn address_value(text: &[u8]) -> u64
    requires { is_address text.now ≡ true }
    ensures { result ≡ digits_value 16 text.now }
{
    let mut value: u64 = 0;
    for c in text {
        value = value * 16 + hex_value(*c);
    }
    value
}

fn hex_value(c: u8) -> u64
    requires { is_hex c ≡ true }
    ensures value { result ≡ digit_value c }
    ensures small { result < 16 }
{
    if c <= b'9' {
        (c - b'0') as u64
    } else if c <= b'F' {
        (c - b'A' + 10) as u64
    } else {
        (c - b'a' + 10) as u64
    }
}
