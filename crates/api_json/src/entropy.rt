// PUT /entropy
ghost use Rattle.std.specs.Prelude.{◌≡◌};
ghost use Rattle.serde_json.specs.View.{view};
ghost use Rattle.api_calls.specs.Call.{made};
ghost use Rattle.api_calls.specs.declared.endpoint.Body.TheVariants as body;

use crate::form::{Kind, Row};
use crate::levels::{Form, Level, Together};
use crate::limits::{BUCKET_ROWS, LIMITER_ROWS, limited_levels, limiter_at};
use api_calls::{ApiCall, Entropy};
use serde_json::Value;

const PUT_ROWS: [Row; 1] = [Row {
    name: "rate_limiter",
    required: false,
    kind: Kind::Group,
}];

pub static ENTROPY: Form<'static> = Form {
    levels: &limited_levels![&PUT_ROWS; "rate_limiter"],
    together: Together::Free,
};

/// The call of a body in which nothing is refused.
pub fn put(object: &Value) -> ApiCall
    ensures { result ≡ made body.Entropy (view object.now) }
{
    ApiCall::PutEntropy(Entropy {
        rate_limiter: limiter_at(object, "rate_limiter"),
    })
}
