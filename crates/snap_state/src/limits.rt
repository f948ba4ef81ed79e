// Limits of drives, as they are configured.
ghost use Rattle.std.specs.Prelude.{◌≡◌, ◌^◌, nat_lt};
ghost use Rattle.api_calls.specs.Form.{holds};
ghost use Rattle.api_calls.specs.Limits as limits;
ghost use Rattle.snap_state.specs.Limits.{bucket, limiter};

use crate::filed::{Filed, for_file, taken};
use api_calls::{BucketConfig, Limiter};
use file_format::{Input, ReadError, Stored};
use std::alloc::{AllocError, Global};

/// Tokens are counted below this.
const MOST_TOKENS: u64 = 0x1_0000_0000_0000;

/// A refill takes fewer milliseconds.
const MOST_TIME: u64 = 0x1_0000_0000;

#[tactic(auto, unfolding(crate::specs::Limits::bucket))]
impl Stored for Filed<BucketConfig> {
    ghost format = { bucket };

    fn write(&self, out: &mut Vec<u8>) -> Result<(), AllocError> {
        self.value.size.write(out)?;
        self.value.refill_time.write(out)?;
        self.value.one_time_burst.write(out)?;
        Ok(())
    }

    fn read(alloc: Global, input: &mut Input) -> Result<Filed<BucketConfig>, ReadError> {
        let (size, (refill_time, one_time_burst)) = Stored::read(alloc, input)?;
        Ok(Filed {
            value: BucketConfig {
                size,
                refill_time,
                one_time_burst,
            },
        })
    }
}

#[tactic(auto, unfolding(crate::specs::Limits::limiter))]
impl Stored for Filed<Limiter> {
    ghost format = { limiter };

    fn write(&self, out: &mut Vec<u8>) -> Result<(), AllocError> {
        for_file(self.value.bandwidth).write(out)?;
        for_file(self.value.ops).write(out)?;
        Ok(())
    }

    fn read(alloc: Global, input: &mut Input) -> Result<Filed<Limiter>, ReadError> {
        let (bandwidth, ops): (Option<Filed<BucketConfig>>, Option<Filed<BucketConfig>>) =
            Stored::read(alloc, input)?;
        Ok(Filed {
            value: Limiter {
                bandwidth: taken(bandwidth),
                ops: taken(ops),
            },
        })
    }
}

fn is_burst(burst: Option<u64>) -> bool
    ensures { result ≡ holds (λ n. nat_lt n (2 ^ 48)) burst }
{
    match burst {
        None => true,
        Some(burst) => burst < MOST_TOKENS,
    }
}

fn is_bucket(bucket: &BucketConfig) -> bool
    ensures { result ≡ limits.is_bucket bucket.now }
{
    bucket.size < MOST_TOKENS && bucket.refill_time < MOST_TIME && is_burst(bucket.one_time_burst)
}

fn holds_bucket(bucket: &Option<BucketConfig>) -> bool
    ensures { result ≡ holds limits.is_bucket bucket.now }
{
    match bucket {
        None => true,
        Some(bucket) => is_bucket(bucket),
    }
}

fn is_limiter(limiter: &Limiter) -> bool
    ensures { result ≡ limits.is_limiter limiter.now }
{
    holds_bucket(&limiter.bandwidth) && holds_bucket(&limiter.ops)
}

/// Whether there are such limits, if there are any.
pub fn holds_limiter(limiter: &Option<Limiter>) -> bool
    ensures { result ≡ holds limits.is_limiter limiter.now }
{
    match limiter {
        None => true,
        Some(limiter) => is_limiter(limiter),
    }
}
