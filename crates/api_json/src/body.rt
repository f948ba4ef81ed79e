// A body as JSON, and the values of its fields.
ghost use Rattle.std.specs.Prelude.{◌≡◌, option_map};
ghost use Rattle.serde_json.specs.View.{view};
ghost use Rattle.api_calls.specs.Call as call;
ghost use Rattle.api_calls.specs.Form.{flag_at, number_at, text_at};
ghost use Rattle.api_json.specs.Gives.{GivesBy};

use crate::error::ReadError;
use refusals::Refusal;
use serde_json::Value;
use std::alloc::Global;

/// The object that a body is. `Refused`: it is no JSON, or no object.
#[tactic(auto, unfolding(api_calls::specs::Call::object_of))]
pub fn object_of(alloc: Global, bytes: &[u8]) -> Result<Value, ReadError>
    ensures { GivesBy view result (call.object_of bytes.now) }
{
    match Value::from_slice(alloc, bytes) {
        Ok(value) => {
            if value.is_object() {
                Ok(value)
            } else {
                Err(ReadError::Refused(Refusal::WrongKind))
            }
        }
        Err(e) => {
            if e.is_memory() {
                Err(ReadError::OutOfMemory)
            } else {
                Err(ReadError::Refused(Refusal::NotJson))
            }
        }
    }
}

pub fn text<'v>(object: &'v Value, name: &str) -> Option<&'v str>
    ensures { option_map (λ s. s.now) result ≡ text_at name.now (view object.now) }
{
    object.get(name).and_then(Value::as_str)
}

/// A text, or the empty one where there is none.
pub fn text_or_none<'v>(object: &'v Value, name: &str) -> &'v str
    ensures { result.now ≡ call.text_or_none (text_at name.now (view object.now)) }
{
    match text(object, name) {
        Some(text) => text,
        None => "",
    }
}

/// The object in a field, if it has one.
pub fn object<'v>(object: &'v Value, name: &str) -> Option<&'v Value>
    ensures { option_map (λ v. view v.now) result ≡ call.object_under name.now (view object.now) }
{
    let value = object.get(name)?;
    if value.is_object() { Some(value) } else { None }
}

pub fn number(object: &Value, name: &str) -> Option<u64>
    ensures { result ≡ number_at name.now (view object.now) }
{
    object.get(name).and_then(Value::as_u64)
}

pub fn flag(object: &Value, name: &str) -> Option<bool>
    ensures { result ≡ flag_at name.now (view object.now) }
{
    object.get(name).and_then(Value::as_bool)
}

/// Whether a flag is there and set.
pub fn is_set(object: &Value, name: &str) -> bool
    ensures { result ≡ call.is_set name.now (view object.now) }
{
    flag(object, name).unwrap_or(false)
}
