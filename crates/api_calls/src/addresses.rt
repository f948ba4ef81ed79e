// Addresses as texts: that of a network device, and that of metadata.
ghost use Rattle.std.specs.Prelude.{◌≡◌, ◌==◌};
ghost use Rattle.std.specs.List.{position};
ghost use Rattle.api_calls.specs.Addresses as addresses;

use script_words::{behind, number_within};

const MAC_LEN: usize = 17;

fn are_digits(first: u8, second: u8) -> bool
    ensures { result ≡ addresses.are_digits first second }
{
    first.is_ascii_hexdigit() && second.is_ascii_hexdigit()
}

// Pairs of hexadecimal digits, with colons between.
fn are_pairs(text: &[u8]) -> bool
    ensures { result ≡ addresses.are_pairs text.now }
{
    match text {
        [first, second] => are_digits(*first, *second),
        [first, second, between, rest @ ..] => {
            are_digits(*first, *second) && *between == b':' && are_pairs(rest)
        }
        _ => false,
    }
}

/// Whether this is an address: six pairs of hexadecimal digits with colons between.
pub fn is_mac(text: &[u8]) -> bool
    ensures { result ≡ addresses.is_mac text.now }
{
    text.len() == MAC_LEN && are_pairs(text)
}

// Where the first point is.
fn point_at(text: &[u8]) -> Option<usize>
    ensures { result ≡ position (λ b. b == 46) text.now }
{
    text.iter().position(|byte| *byte == b'.')
}

// Whether the numbers before and behind the first point are in their bounds.
fn are_in_bounds(text: &[u8]) -> bool
    ensures { result ≡ addresses.ends_at text.now (position (λ b. b == 46) text.now) }
{
    match point_at(text) {
        Some(point) => {
            number_within(&text[..point], 1, 254).is_some()
                && number_within(&text[point + 1..], 0, 255).is_some()
        }
        None => false,
    }
}

/// Whether this is an address of metadata: from 169.254.1.0 to 169.254.254.255.
pub fn is_metadata_address(text: &[u8]) -> bool
    ensures { result ≡ addresses.is_metadata_address text.now }
{
    match behind(b"169.254.", text) {
        Some(rest) => are_in_bounds(rest),
        None => false,
    }
}
