// PUT /vsock
ghost use Rattle.std.specs.Prelude.{◌≡◌, IfOk};
ghost use Rattle.serde_json.specs.View.{view};
ghost use Rattle.api_calls.specs.Call.{made};
ghost use Rattle.api_calls.specs.declared.endpoint.Body.TheVariants as body;

use crate::body::{number, text_or_none};
use crate::form::{Kind, Row};
use crate::levels::{Form, Level, Together};
use api_calls::{ApiCall, Vsock};
use serde_json::Value;
use std::alloc::{AllocError, Global};
use vm_types::TextList;

const LEAST_CID: u64 = 3;

const MOST_CID: u64 = 4_294_967_294;

/// No body is longer.
const LONGEST_ID: usize = 65_536;

const PUT_ROWS: [Row; 3] = [
    Row {
        name: "guest_cid",
        required: true,
        kind: Kind::Whole(LEAST_CID, MOST_CID),
    },
    Row {
        name: "uds_path",
        required: true,
        kind: Kind::Path,
    },
    Row {
        name: "vsock_id",
        required: false,
        kind: Kind::Text(LONGEST_ID),
    },
];

pub static VSOCK: Form<'static> = Form {
    levels: &[Level {
        place: &[],
        rows: &PUT_ROWS,
    }],
    together: Together::Free,
};

/// The call of a body in which nothing is refused.
pub fn put(alloc: Global, object: &Value) -> Result<ApiCall, AllocError>
    ensures { IfOk result (λ found. found ≡ made body.Vsock (view object.now)) }
{
    let uds_path = TextList::copy_of(alloc, text_or_none(object, "uds_path"))?;
    Ok(ApiCall::PutVsock(Vsock {
        guest_cid: number(object, "guest_cid").unwrap_or(0),
        uds_path,
    }))
}
