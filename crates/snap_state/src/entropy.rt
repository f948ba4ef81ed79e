// The entropy device, as it is configured.
ghost use Rattle.std.specs.Prelude.{◌≡◌};
ghost use Rattle.api_calls.specs.Form.{holds};
ghost use Rattle.snap_state.specs.Copies.{entropy};
ghost use Rattle.snap_state.specs.Valid as valid;

use crate::filed::{Filed, for_file, taken};
use crate::limits::holds_limiter;
use api_calls::{Entropy, Limiter};
use file_format::{Input, ReadError, Stored};
use std::alloc::{AllocError, Global};

#[tactic(auto, unfolding(crate::specs::Copies::entropy))]
impl Stored for Filed<Entropy> {
    ghost format = { entropy };

    fn write(&self, out: &mut Vec<u8>) -> Result<(), AllocError> {
        for_file(self.value.rate_limiter).write(out)?;
        Ok(())
    }

    fn read(alloc: Global, input: &mut Input) -> Result<Filed<Entropy>, ReadError> {
        let limiter: Option<Filed<Limiter>> = Stored::read(alloc, input)?;
        Ok(Filed {
            value: Entropy {
                rate_limiter: taken(limiter),
            },
        })
    }
}

/// Whether a machine may have this entropy device, if there is one.
pub fn holds_entropy(entropy: &Option<Entropy>) -> bool
    ensures { result ≡ holds valid.is_entropy entropy.now }
{
    match entropy {
        None => true,
        Some(entropy) => holds_limiter(&entropy.rate_limiter),
    }
}
