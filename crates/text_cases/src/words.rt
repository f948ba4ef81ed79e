// The words of a call's fields.
use api_calls::{BucketConfig, Limiter};
use std::alloc::AllocError;

/// Puts a space and a word at the end.
pub fn add_word(word: &str, text: &mut String) -> Result<(), AllocError> {
    text.push(' ')?;
    text.push_str(word)
}

/// Puts a space and a number at the end.
pub fn add_number(number: u64, text: &mut String) -> Result<(), AllocError> {
    write!(text, " {number}")
}

/// Puts limits at the end, if there are any: `NAME(BANDWIDTH,OPS)`, each `SIZE/TIME`, `SIZE/TIME/BURST` or `-`.
pub fn add_limits(
    name: &str,
    limiter: &Option<Limiter>,
    text: &mut String,
) -> Result<(), AllocError> {
    let Some(limiter) = limiter else {
        return Ok(());
    };
    add_word(name, text)?;
    text.push('(')?;
    add_bucket(&limiter.bandwidth, text)?;
    text.push(',')?;
    add_bucket(&limiter.ops, text)?;
    text.push(')')
}

fn add_bucket(bucket: &Option<BucketConfig>, text: &mut String) -> Result<(), AllocError> {
    let Some(bucket) = bucket else {
        return text.push('-');
    };
    write!(text, "{}/{}", bucket.size, bucket.refill_time)?;
    match bucket.one_time_burst {
        Some(burst) => write!(text, "/{burst}"),
        None => Ok(()),
    }
}
