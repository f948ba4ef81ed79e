// What is to be stored, or why not.
ghost use Rattle.std.specs.Prelude.{◌≡◌, false, IfOk};
ghost use Rattle.serde_json.specs.View.{view};
ghost use Rattle.serde_json.specs.Written.{has_float};
ghost use Rattle.metadata_store.specs.Store.{kept, patched, put, GivesValue};

use crate::error::StoreError;
use crate::merge::merge;
use crate::whole::is_metadata;
use refusals::Refusal;
use serde_json::Value;
use std::alloc::Global;

const LONGEST_TEXT: usize = 51_200;

/// What a PUT of a body leaves.
#[tactic(auto, unfolding(crate::specs::Store::put))]
pub fn put(alloc: Global, body: Value) -> Result<Value, StoreError>
    ensures gives { GivesValue result (put (view body)) }
    ensures whole { IfOk result (λ value. has_float (view value) ≡ false) }
{
    if !is_metadata(&body) {
        return Err(StoreError::Refused(Refusal::WrongKind));
    }
    kept(alloc, body)
}

/// What a PATCH leaves of what is stored.
#[tactic(auto, unfolding(crate::specs::Store::patched))]
pub fn patched(alloc: Global, stored: &Value, patch: &Value) -> Result<Value, StoreError>
    requires { has_float (view stored.now) ≡ false }
    ensures gives { GivesValue result (patched (view stored.now) (view patch.now)) }
    ensures whole { IfOk result (λ value. has_float (view value) ≡ false) }
{
    if !is_metadata(patch) {
        return Err(StoreError::Refused(Refusal::WrongKind));
    }
    if stored.is_null() {
        return Err(StoreError::Refused(Refusal::StoreNotInitialized));
    }
    let merged = merge(alloc, patch, stored)?;
    kept(alloc, merged)
}

// A value whose text is short enough.
fn kept(alloc: Global, value: Value) -> Result<Value, StoreError>
    requires { has_float (view value) ≡ false }
    ensures gives { GivesValue result (kept (view value)) }
    ensures whole { IfOk result (λ kept. has_float (view kept) ≡ false) }
{
    let text = value.to_string(alloc)?;
    if text.len() <= LONGEST_TEXT {
        Ok(value)
    } else {
        Err(StoreError::Refused(Refusal::TooLarge))
    }
}
