// What names a snapshot, as files have it.
ghost use Rattle.std.specs.Prelude.{◌≡◌};
ghost use Rattle.file_format.specs.Identities.{identity, is_numbered, is_same};

use crate::error::ReadError;
use crate::input::Input;
use crate::stored::Stored;
use std::alloc::{AllocError, Global};
use vm_types::Identity;

#[tactic(auto, unfolding(crate::specs::Identities::identity))]
impl Stored for Identity {
    ghost format = { identity };

    fn write(&self, out: &mut Vec<u8>) -> Result<(), AllocError> {
        self.lineage.write(out)?;
        self.number.write(out)?;
        Ok(())
    }

    fn read(alloc: Global, input: &mut Input) -> Result<Identity, ReadError> {
        let (lineage, number) = Stored::read(alloc, input)?;
        Ok(Identity { lineage, number })
    }
}

/// Whether the number is one that snapshots have: from 1 to below 2^63.
pub fn is_numbered(identity: Identity) -> bool
    ensures { result ≡ is_numbered identity }
{
    0 < identity.number && identity.number < 0x8000_0000_0000_0000
}

/// Whether both name one snapshot.
pub fn is_same(a: Identity, b: Identity) -> bool
    ensures { result ≡ is_same a b }
{
    a.lineage == b.lineage && a.number == b.number
}
