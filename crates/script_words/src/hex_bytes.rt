// Bytes as pairs of hexadecimal digits.
ghost use Rattle.std.specs.Prelude.{◌≡◌, ◌∷◌, ◌<◌, ℕ, List, Option, IfNone, IfOk, IfSome};
ghost use Rattle.script_words.specs.Numbers.{byte_onto, bytes_of, nibble_of};

use crate::number::is_digit;
use std::alloc::{AllocError, Global};
use vm_types::ByteList;

/// The bytes that pairs of lower-case digits write.
pub fn bytes_from(alloc: Global, text: &[u8]) -> Result<Option<ByteList>, AllocError>
    ensures { IfOk result (λ bytes. bytes ≡ bytes_of text.now) }
{
    let mut bytes = Vec::new(alloc);
    let mut rest = text;
    while let [high, low, more @ ..] = rest {
        let Some(byte) = byte_from(*high, *low) else {
            return Ok(None);
        };
        bytes.push(byte)?;
        rest = more;
    }
    if rest.is_empty() {
        Ok(Some(ByteList::from_vec(bytes)))
    } else {
        Ok(None)
    }
}

fn byte_from(high: u8, low: u8) -> Option<u8>
    ensures none { IfNone result ((rest : Option (List ℕ)) → byte_onto (nibble_of high) (nibble_of low) rest ≡ None) }
    ensures byte { IfSome result (λ byte.
        (rest : List ℕ) → byte_onto (nibble_of high) (nibble_of low) (Some rest) ≡ Some (byte ∷ rest)) }
{
    let high = nibble_from(high)?;
    let low = nibble_from(low)?;
    Some(16 * high + low)
}

fn nibble_from(c: u8) -> Option<u8>
    ensures value { result ≡ nibble_of c }
    ensures most { IfSome result (λ nibble. nibble < 16) }
{
    if is_digit(c) {
        Some(c - b'0')
    } else if b'a' <= c && c <= b'f' {
        Some(c - b'a' + 10)
    } else {
        None
    }
}
