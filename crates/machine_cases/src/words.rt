// What the words of a command say, and answers as words.
use std::alloc::{AllocError, Global};
use std::fmt::Debug;
use vm_types::Piece;

/// The numbers of a command.
#[derive(Clone, Copy, Drop)]
pub struct Numbers {
    pub a: u64,
    pub b: u64,
    pub c: u64,
    pub d: u64,
}

/// A number, in hexadecimal digits. What is left out is 0.
pub fn number(digits: Option<&str>) -> Option<u64> {
    match digits {
        None | Some("") => Some(0),
        Some(digits) => u64::from_str_radix(digits, 16).ok(),
    }
}

/// Up to four numbers, which this character parts.
pub fn numbers_in(text: &str, separator: char) -> Option<Numbers> {
    let mut parts = text.split(separator);
    Some(Numbers {
        a: number(parts.next())?,
        b: number(parts.next())?,
        c: number(parts.next())?,
        d: number(parts.next())?,
    })
}

/// A command's first word, and the numbers behind it.
pub fn parted(command: &str) -> Option<(&str, Numbers)> {
    let (name, rest) = command.split_once(' ').unwrap_or((command, ""));
    Some((name, numbers_in(rest, ' ')?))
}

/// Up to 64 bytes in their order, of two hexadecimal digits each.
pub fn piece_from(digits: &str) -> Option<Piece> {
    let mut bytes = [0; Piece::MOST];
    let len = digits.len() / 2;
    if len > Piece::MOST || hex::decode_to_slice(digits, &mut bytes[..len]).is_err() {
        return None;
    }
    Some(Piece::from_slice(&bytes[..len]))
}

/// Puts a number at the end, in hexadecimal digits.
pub fn push_number(text: &mut String, number: u64) -> Result<(), AllocError> {
    write!(text, "{number:x}")
}

/// Puts bytes at the end, of two hexadecimal digits each.
pub fn push_bytes(alloc: Global, text: &mut String, bytes: &[u8]) -> Result<(), AllocError> {
    text.push_str(hex::encode(alloc, bytes)?.as_str())
}

/// Puts a value at the end, as derived printing has it.
pub fn push_shown<T: Debug>(text: &mut String, value: &T) -> Result<(), AllocError> {
    write!(text, "{value:?}")
}
