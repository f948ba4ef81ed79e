// PATCH /vm
ghost use Rattle.std.specs.Prelude.{◌≡◌};
ghost use Rattle.serde_json.specs.View.{view};
ghost use Rattle.api_calls.specs.Call as call;

use crate::body::text;
use crate::form::{Kind, Row};
use crate::levels::{Form, Level, Together};
use api_calls::VmState;
use serde_json::Value;

const ROWS: [Row; 1] = [Row {
    name: "state",
    required: true,
    kind: Kind::Choice(&["Paused", "Resumed"]),
}];

pub static VM_STATE: Form<'static> = Form {
    levels: &[Level {
        place: &[],
        rows: &ROWS,
    }],
    together: Together::Free,
};

/// The state that a body asks for in which nothing is refused.
pub fn state_of(object: &Value) -> VmState
    ensures { result ≡ call.state_of (view object.now) }
{
    match text(object, "state") {
        Some(text) => {
            if text == "Paused" {
                VmState::Paused
            } else {
                VmState::Resumed
            }
        }
        None => VmState::Resumed,
    }
}
