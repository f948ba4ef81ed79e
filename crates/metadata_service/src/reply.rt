// A reply.
ghost use Rattle.std.specs.Prelude.{◌≡◌};
ghost use Rattle.metadata_service.specs.Service.{bare, found_text};

use std::alloc::Global;
use vm_types::ByteList;

/// A reply: its HTTP status, and its body, which is empty but at 200.
#[derive(Drop)]
pub struct Reply {
    pub status: u16,
    pub body: ByteList,
}

/// A reply without a body.
pub fn bare(alloc: Global, status: u16) -> Reply
    ensures { result ≡ bare status }
{
    Reply {
        status,
        body: ByteList::new(alloc),
    }
}

/// A reply that has a text.
pub fn found_text(body: ByteList) -> Reply
    ensures { result ≡ found_text body }
{
    Reply { status: 200, body }
}
