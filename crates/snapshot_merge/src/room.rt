// The memory that a merge takes.
ghost use Rattle.std.specs.Prelude.{◌≡◌, IfOk, length};
ghost use Rattle.file_format.specs.Identities.{identity};

use file_format::Stored;
use gate_file::zeros;
use guest_memory::PAGE_SIZE;
use std::alloc::{AllocError, Global};
use vm_types::Identity;

/// The bytes of the diff's identity, and room for a page.
#[derive(Drop)]
pub struct Room {
    pub name: Vec<u8>,
    pub page: Vec<u8>,
}

impl Room {
    pub(crate) fn new(alloc: Global, name: Identity) -> Result<Room, AllocError>
        ensures name { IfOk result (λ room. room.name.items ≡ identity.bytes name) }
        ensures page { IfOk result (λ room. length room.page.items ≡ 4096) }
    {
        let page = zeros(alloc, PAGE_SIZE)?;
        let name = bytes_of(alloc, name)?;
        Ok(Room { name, page })
    }
}

fn bytes_of(alloc: Global, name: Identity) -> Result<Vec<u8>, AllocError>
    ensures { IfOk result (λ bytes. bytes.items ≡ identity.bytes name) }
{
    let mut bytes = Vec::new(alloc);
    name.write(&mut bytes)?;
    Ok(bytes)
}
