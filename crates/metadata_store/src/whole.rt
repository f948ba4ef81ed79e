// Whether all numbers of a value are whole.
ghost use Rattle.std.specs.Prelude.{◌≡◌, ◌&&◌, not, is_some, unwrap_or, option_map};
ghost use Rattle.serde_json.specs.Find.{as_object, as_number, is_float};
ghost use Rattle.serde_json.specs.View.{view, items_view, members_view};
ghost use Rattle.serde_json.specs.Written.{has_float, items_have_float, members_have_float};
ghost use Rattle.metadata_store.specs.Store.{is_metadata};

use serde_json::{Map, Value};

/// An object, all of whose numbers are whole ones of 64 bits.
pub fn is_metadata(value: &Value) -> bool
    ensures { result ≡ is_metadata (view value.now) }
{
    value.is_object() && !has_float(value)
}

#[cycle(float)]
fn has_float(value: &Value) -> bool
    ensures { result ≡ has_float (view value.now) }
{
    match value {
        Value::Number(number) => number.is_f64(),
        Value::Array(items) => any_float(items),
        Value::Object(members) => any_member_float(members),
        _ => false,
    }
}

#[cycle(float)]
fn any_float(items: &Vec<Value>) -> bool
    ensures { result ≡ items_have_float (items_view items.now.items) }
{
    for item in items {
        if has_float(item) {
            return true;
        }
    }
    false
}

#[cycle(float)]
fn any_member_float(members: &Map<String, Value>) -> bool
    ensures { result ≡ members_have_float (members_view members.now.entries) }
{
    for (_, member) in members.iter() {
        if has_float(member) {
            return true;
        }
    }
    false
}
