// The address of a network device, as it is configured.
ghost use Rattle.std.specs.Prelude.{◌≡◌};
ghost use Rattle.std.specs.Str.{bytes_eq};
ghost use Rattle.api_calls.specs.Addresses as addresses;
ghost use Rattle.api_calls.specs.Form.{holds};

use api_calls::is_mac;
use vm_types::TextList;

// Each of its letters is small.
fn is_small(text: &[u8]) -> bool
    ensures { result ≡ bytes_eq (addresses.lowered text.now) text.now }
{
    match text {
        [first, rest @ ..] => first.to_ascii_lowercase() == *first && is_small(rest),
        [] => true,
    }
}

/// Whether this is an address with small letters, if there is one.
pub fn holds_mac(text: &Option<TextList>) -> bool
    ensures { result ≡ holds addresses.is_small_mac text.now }
{
    match text {
        None => true,
        Some(text) => is_mac(text.as_str().as_bytes()) && is_small(text.as_str().as_bytes()),
    }
}
