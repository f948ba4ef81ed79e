// The limits in a body.
ghost use Rattle.std.specs.Prelude.{◌≡◌, option_map};
ghost use Rattle.serde_json.specs.View.{view};
ghost use Rattle.api_calls.specs.Call as call;

use crate::body::{number, object};
use crate::form::{Kind, Row};
use api_calls::{BucketConfig, Limiter};
use serde_json::Value;

const MOST_TOKENS: u64 = (1 << 48) - 1;

const MOST_MILLISECONDS: u64 = (1 << 32) - 1;

pub const LIMITER_ROWS: [Row; 2] = [
    Row {
        name: "bandwidth",
        required: false,
        kind: Kind::Group,
    },
    Row {
        name: "ops",
        required: false,
        kind: Kind::Group,
    },
];

pub const BUCKET_ROWS: [Row; 3] = [
    Row {
        name: "size",
        required: true,
        kind: Kind::Whole(0, MOST_TOKENS),
    },
    Row {
        name: "refill_time",
        required: true,
        kind: Kind::Whole(0, MOST_MILLISECONDS),
    },
    Row {
        name: "one_time_burst",
        required: false,
        kind: Kind::Whole(0, MOST_TOKENS),
    },
];

/// The levels of a body with these rows: the fields of the body itself, then for each of these names the limits in the field of that name and
/// the two buckets in them.
macro_rules! limited_levels {
    ($rows:expr; $($name:literal),+) => {
        [
            Level {
                place: &[],
                rows: $rows,
            },
            $(
                Level {
                    place: &[$name],
                    rows: &LIMITER_ROWS,
                },
                Level {
                    place: &[$name, "bandwidth"],
                    rows: &BUCKET_ROWS,
                },
                Level {
                    place: &[$name, "ops"],
                    rows: &BUCKET_ROWS,
                },
            )+
        ]
    };
}

pub(crate) use limited_levels;

fn bucket_of(object: &Value) -> BucketConfig
    ensures { result ≡ call.bucket_of (view object.now) }
{
    BucketConfig {
        size: number(object, "size").unwrap_or(0),
        refill_time: number(object, "refill_time").unwrap_or(0),
        one_time_burst: number(object, "one_time_burst"),
    }
}

fn bucket_at(limits: &Value, name: &str) -> Option<BucketConfig>
    ensures { result ≡ option_map call.bucket_of (call.object_under name.now (view limits.now)) }
{
    match object(limits, name) {
        Some(bucket) => Some(bucket_of(bucket)),
        None => None,
    }
}

fn limiter_of(object: &Value) -> Limiter
    ensures { result ≡ call.limiter_of (view object.now) }
{
    Limiter {
        bandwidth: bucket_at(object, "bandwidth"),
        ops: bucket_at(object, "ops"),
    }
}

/// The limits in the field of this name, if there are any.
pub fn limiter_at(body: &Value, name: &str) -> Option<Limiter>
    ensures { result ≡ call.limiter_at name.now (view body.now) }
{
    match object(body, name) {
        Some(limits) => Some(limiter_of(limits)),
        None => None,
    }
}
