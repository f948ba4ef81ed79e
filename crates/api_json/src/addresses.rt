// The address of a network device as a text.
ghost use Rattle.std.specs.Prelude.{◌≡◌, IfOk};
ghost use Rattle.api_calls.specs.Addresses as addresses;

use std::alloc::{AllocError, Global};
use vm_types::TextList;

/// The address with small letters.
pub fn lowered(alloc: Global, text: &str) -> Result<TextList, AllocError>
    ensures { IfOk result (λ t. t ≡ addresses.lowered text.now) }
{
    let small = text.to_ascii_lowercase(alloc)?;
    TextList::copy_of(alloc, small.as_str())
}
