// The vsock device, as it is configured.
ghost use Rattle.std.specs.Prelude.{◌≡◌};
ghost use Rattle.api_calls.specs.Form.{holds};
ghost use Rattle.snap_state.specs.Configured.{vsock};
ghost use Rattle.snap_state.specs.Valid as valid;

use crate::filed::Filed;
use crate::valid::is_path;
use api_calls::Vsock;
use file_format::{Input, ReadError, Stored};
use std::alloc::{AllocError, Global};

/// A guest has one from this on.
const FIRST_CID: u64 = 3;

/// And below this.
const NO_CID: u64 = 0xffff_ffff;

#[tactic(auto, unfolding(crate::specs::Configured::vsock))]
impl Stored for Filed<Vsock> {
    ghost format = { vsock };

    fn write(&self, out: &mut Vec<u8>) -> Result<(), AllocError> {
        self.value.guest_cid.write(out)?;
        self.value.uds_path.write(out)?;
        Ok(())
    }

    fn read(alloc: Global, input: &mut Input) -> Result<Filed<Vsock>, ReadError> {
        let (guest_cid, uds_path) = Stored::read(alloc, input)?;
        Ok(Filed {
            value: Vsock {
                guest_cid,
                uds_path,
            },
        })
    }
}

fn is_vsock(vsock: &Vsock) -> bool
    ensures { result ≡ valid.is_vsock vsock.now }
{
    FIRST_CID <= vsock.guest_cid && vsock.guest_cid < NO_CID && is_path(vsock.uds_path.as_str())
}

/// Whether a machine may have this vsock device, if there is one.
pub fn holds_vsock(vsock: &Option<Filed<Vsock>>) -> bool
    ensures { result ≡ holds valid.is_vsock vsock.now }
{
    match vsock {
        None => true,
        Some(vsock) => is_vsock(&vsock.value),
    }
}
