// The buckets of limits.
ghost use Rattle.std.specs.Prelude.{◌≡◌, Option, Some, true, option_and_then, option_map};
ghost use Rattle.api_calls.specs.Form.{holds};
ghost use Rattle.api_calls.specs.Limits.{is_bucket, is_limiter};
ghost use Rattle.flat_machine.specs.Limits as limits;
ghost use Rattle.monitor_plans.specs.Limiting.{tells_of};

use api_calls::{BucketConfig, Limiter};
use guest_devices::DeviceChange;
use rate_gate::RateGate;
use token_bucket::Bucket;

#[tactic(auto, using(crate::proofs::LimitsHeld::size_below, crate::proofs::LimitsHeld::time_below))]
fn bucket_of(bucket: &BucketConfig) -> Option<Bucket>
    requires { is_bucket bucket.now ≡ true }
    ensures { result ≡ limits.bucket_of bucket.now }
{
    let burst = bucket.one_time_burst.unwrap_or(0);
    Bucket::new(bucket.size, burst, bucket.refill_time)
}

fn bucket_by(bucket: &Option<BucketConfig>) -> Option<Bucket>
    requires { holds is_bucket bucket.now ≡ true }
    ensures { result ≡ option_and_then limits.bucket_of bucket.now }
{
    match bucket {
        None => None,
        Some(bucket) => bucket_of(bucket),
    }
}

// What a PATCH says of it: nothing, or another one, which may be none.
fn bucket_told(bucket: &Option<BucketConfig>) -> Option<Option<Bucket>>
    requires { holds is_bucket bucket.now ≡ true }
    ensures { result ≡ option_map limits.bucket_of bucket.now }
{
    match bucket {
        None => None,
        Some(bucket) => Some(bucket_of(bucket)),
    }
}

#[tactic(auto, using(crate::proofs::LimitsHeld::bandwidth_holds, crate::proofs::LimitsHeld::ops_holds))]
fn gate_by(limiter: &Limiter) -> RateGate
    requires { is_limiter limiter.now ≡ true }
    ensures { result ≡ limits.limits_of (Some limiter.now) }
{
    RateGate::new(bucket_by(&limiter.bandwidth), bucket_by(&limiter.ops))
}

/// What a drive with these limits, or either way of an interface, starts with.
pub fn gate_of(limiter: &Option<Limiter>) -> RateGate
    requires { holds is_limiter limiter.now ≡ true }
    ensures { result ≡ limits.limits_of limiter.now }
{
    match limiter {
        None => RateGate::new(None, None),
        Some(limiter) => gate_by(limiter),
    }
}

/// Which limits of a device they are.
#[derive(Clone, Copy, Drop)]
pub enum LimitsOf {
    /// Of the requests of a drive.
    Requests,
    /// Of the frames that an interface receives.
    Receives,
    /// Of those that it transmits.
    Transmits,
}

/// What a PATCH with these limits tells the device.
#[tactic(auto, using(crate::proofs::LimitsHeld::bandwidth_holds, crate::proofs::LimitsHeld::ops_holds))]
pub fn limits_told(of: LimitsOf, limiter: &Limiter) -> DeviceChange
    requires { is_limiter limiter.now ≡ true }
    ensures { result ≡ tells_of of limiter.now }
{
    let bandwidth = bucket_told(&limiter.bandwidth);
    let ops = bucket_told(&limiter.ops);
    match of {
        LimitsOf::Requests => DeviceChange::of_limits(bandwidth, ops),
        LimitsOf::Receives => DeviceChange::of_receives(bandwidth, ops),
        LimitsOf::Transmits => DeviceChange::of_transmits(bandwidth, ops),
    }
}
