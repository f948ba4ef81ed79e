// The balloon, as it is configured.
ghost use Rattle.std.specs.Prelude.{◌≡◌};
ghost use Rattle.api_calls.specs.Form.{holds};
ghost use Rattle.snap_state.specs.Configured.{balloon};
ghost use Rattle.snap_state.specs.Valid as valid;

use crate::filed::Filed;
use api_calls::Balloon;
use file_format::{Input, ReadError, Stored};
use std::alloc::{AllocError, Global};

/// There are fewer seconds between two reports.
const MOST_SECONDS: u64 = 0x1_0000;

#[tactic(auto, unfolding(crate::specs::Configured::balloon))]
impl Stored for Filed<Balloon> {
    ghost format = { balloon };

    fn write(&self, out: &mut Vec<u8>) -> Result<(), AllocError> {
        self.value.amount_mib.write(out)?;
        self.value.deflate_on_oom.write(out)?;
        self.value.stats_polling_interval_s.write(out)?;
        Ok(())
    }

    fn read(alloc: Global, input: &mut Input) -> Result<Filed<Balloon>, ReadError> {
        let (amount_mib, (deflate_on_oom, stats_polling_interval_s)) = Stored::read(alloc, input)?;
        Ok(Filed {
            value: Balloon {
                amount_mib,
                deflate_on_oom,
                stats_polling_interval_s,
            },
        })
    }
}

fn is_balloon(mib: u64, balloon: &Balloon) -> bool
    ensures { result ≡ valid.is_balloon mib balloon.now }
{
    balloon.amount_mib <= mib && balloon.stats_polling_interval_s < MOST_SECONDS
}

/// Whether a machine of so many MiB may have this balloon, if there is one.
pub fn holds_balloon(mib: u64, balloon: &Option<Balloon>) -> bool
    ensures { result ≡ holds (valid.is_balloon mib) balloon.now }
{
    match balloon {
        None => true,
        Some(balloon) => is_balloon(mib, balloon),
    }
}
