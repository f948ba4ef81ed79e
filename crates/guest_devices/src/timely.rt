// When the newest request passed of each bucket of a device.
ghost use Rattle.std.specs.Prelude.{◌≡◌};
ghost use Rattle.guest_devices.specs.Moments.{are_before, is_before};

use rate_gate::RateGate;
use token_bucket::Bucket;

fn is_before(time: u64, bucket: &Option<Bucket>) -> bool
    ensures { result ≡ is_before time bucket.now }
{
    match bucket {
        Some(bucket) => bucket.parts().moment <= time,
        None => true,
    }
}

/// Whether none passed later than this.
pub(crate) fn are_before(time: u64, limits: &RateGate) -> bool
    ensures { result ≡ are_before time limits.now }
{
    let (bandwidth, ops) = limits.buckets();
    is_before(time, bandwidth) && is_before(time, ops)
}
