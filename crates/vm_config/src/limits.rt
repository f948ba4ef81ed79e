// What a PATCH makes of limits.
ghost use Rattle.std.specs.Prelude.{◌≡◌};
ghost use Rattle.vm_config.specs.Limits as limits;

use api_calls::Limiter;

fn names_bucket(limiter: &Limiter) -> bool
    ensures { result ≡ limits.names_bucket limiter.now }
{
    limiter.bandwidth.is_some() || limiter.ops.is_some()
}

fn with_buckets(named: Limiter, old: Limiter) -> Limiter
    ensures { result ≡ limits.with_buckets named old }
{
    Limiter {
        bandwidth: named.bandwidth.or(old.bandwidth),
        ops: named.ops.or(old.ops),
    }
}

/// The limits of which the buckets that are given take the place of those of the same name. Without any they stay as they are.
pub fn limited(patch: Option<Limiter>, old: Option<Limiter>) -> Option<Limiter>
    ensures { result ≡ limits.limited patch old }
{
    let Some(named) = patch else {
        return old;
    };
    if !names_bucket(&named) {
        return old;
    }
    let none = Limiter {
        bandwidth: None,
        ops: None,
    };
    Some(with_buckets(named, old.unwrap_or(none)))
}
