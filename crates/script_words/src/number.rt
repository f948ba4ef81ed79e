// Decimal numbers.
ghost use Rattle.std.specs.Prelude.{◌≡◌, ◌<◌, ◌^◌, true, nat_lt, if◌then◌else◌, length};
ghost use Rattle.std.specs.List.{list_all};
ghost use Rattle.script_words.specs.Numbers.{bounded, is_digit, is_lone, number_of, number_within, numbered, value_of};

use crate::words::behind;

/// The number that these digits write: no leading zero, and 64 bits hold it.
pub fn number_from(text: &[u8]) -> Option<u64>
    ensures { result ≡ number_of text.now }
{
    match text {
        [] => None,
        [first, rest @ ..] => if are_digits(text) && is_lone(*first, rest) {
            value_from(text)
        } else {
            None
        },
    }
}

pub fn is_digit(c: u8) -> bool
    ensures { result ≡ is_digit c }
{
    b'0' <= c && c <= b'9'
}

fn are_digits(text: &[u8]) -> bool
    ensures { result ≡ list_all is_digit text.now }
{
    text.iter().all(|c| is_digit(*c))
}

// Whether a first digit may stand before these: a zero stands alone.
fn is_lone(first: u8, rest: &[u8]) -> bool
    ensures { result ≡ is_lone first rest.now }
{
    rest.is_empty() || first != b'0'
}

fn value_from(digits: &[u8]) -> Option<u64>
    requires digits { list_all is_digit digits.now ≡ true }
    requires some { 0 < length digits.now }
    ensures { result ≡ (if nat_lt (value_of digits.now) (2 ^ 64) then Some (value_of digits.now) else None) }
{
    let Ok(text) = str::from_utf8(digits) else {
        return None;
    };
    match text.parse::<u64>() {
        Ok(value) => Some(value),
        Err(_) => None,
    }
}

/// The number that these digits write, in these bounds.
pub fn number_within(text: &[u8], least: u64, most: u64) -> Option<u64>
    ensures { result ≡ number_within least most text.now }
{
    bounded(number_from(text)?, least, most)
}

fn bounded(n: u64, least: u64, most: u64) -> Option<u64>
    ensures { result ≡ bounded least most n }
{
    if least <= n && n <= most {
        Some(n)
    } else {
        None
    }
}

/// The number behind these bytes, at most this one.
pub fn numbered(word: &[u8], most: u64, line: &[u8]) -> Option<u64>
    ensures { result ≡ numbered word.now most line.now }
{
    number_within(behind(word, line)?, 0, most)
}

/// The same of a number of 32 bits.
pub fn numbered_32(word: &[u8], line: &[u8]) -> Option<u32>
    ensures { result ≡ numbered word.now 4294967295 line.now }
{
    let n = numbered(word, 0xffff_ffff, line)?;
    Some(n as u32)
}

/// The same of a number of 8 bits.
pub fn numbered_8(word: &[u8], line: &[u8]) -> Option<u8>
    ensures { result ≡ numbered word.now 255 line.now }
{
    let n = numbered(word, 0xff, line)?;
    Some(n as u8)
}
