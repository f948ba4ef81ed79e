// Lists of ids in a body.
ghost use Rattle.std.specs.Prelude.{◌≡◌, IfOk, [], ◌&&◌, is_some, length, nat_le, nat_lt, true, unwrap_or};
ghost use Rattle.std.specs.List.{list_all};
ghost use Rattle.serde_json.specs.Find.{as_str};
ghost use Rattle.serde_json.specs.View.{items_view, view};
ghost use Rattle.api_calls.specs.Form as form;

use crate::form::is_id;
use api_calls::IdList;
use serde_json::Value;
use std::alloc::{AllocError, Global};
use vm_types::TextList;

fn all_strings(items: &[Value]) -> bool
    ensures { result ≡ list_all (λ v. is_some (as_str (view v))) items.now }
{
    items.iter().all(|item| item.is_string())
}

fn are_strings(items: &[Value]) -> bool
    ensures { result ≡ is_some (form.texts_of (items_view items.now)) }
{
    all_strings(items)
}

/// Whether a value is a list of texts.
pub fn are_texts(value: &Value) -> bool
    ensures { result ≡ is_some (form.as_texts (view value.now)) }
{
    match value.as_array() {
        Some(items) => are_strings(items),
        None => false,
    }
}

/// Whether a text is an id.
pub fn is_id_text(value: &Value) -> bool
    ensures { result ≡ form.holds form.is_id (as_str (view value.now)) }
{
    match value.as_str() {
        Some(text) => is_id(text.as_bytes()),
        None => true,
    }
}

// A machine has no more devices.
const MOST_IDS: usize = 16;

fn all_ids(items: &[Value]) -> bool
    ensures { result ≡ list_all (λ v. form.holds form.is_id (as_str (view v))) items.now }
{
    items.iter().all(|item| is_id_text(item))
}

// Whether all texts in a list are ids, and there is one, and no more than there may be.
fn are_few_ids(items: &[Value]) -> bool
    ensures { result ≡ (nat_lt 0 (length items.now) && nat_le (length items.now) form.most_ids
        && list_all (λ v. form.holds form.is_id (as_str (view v))) items.now) }
{
    !items.is_empty() && items.len() <= MOST_IDS && all_ids(items)
}

fn are_ids_in(items: &[Value]) -> bool
    requires { is_some (form.texts_of (items_view items.now)) ≡ true }
    ensures { result ≡ form.holds form.are_ids (form.texts_of (items_view items.now)) }
{
    are_few_ids(items)
}

/// Whether the texts in a list are ids, as many as there may be.
#[tactic(auto, using(crate::proofs::IdLemmas::none_held))]
pub fn are_ids(value: &Value) -> bool
    ensures { result ≡ form.holds form.are_ids (form.as_texts (view value.now)) }
{
    match value.as_array() {
        Some(items) => !are_strings(items) || are_ids_in(items),
        None => true,
    }
}

fn copied(alloc: Global, items: &[Value]) -> Result<IdList, AllocError>
    ensures { IfOk result (λ ids. ids ≡ unwrap_or (form.texts_of (items_view items.now)) []) }
{
    let mut ids = IdList::new(alloc);
    if !are_strings(items) {
        return Ok(ids);
    }
    for item in items {
        ids.push(TextList::copy_of(alloc, item.as_str().unwrap_or(""))?)?;
    }
    Ok(ids)
}

/// The texts in the list in a field, or none where there is no such list.
pub fn ids_at(alloc: Global, object: &Value, name: &str) -> Result<IdList, AllocError>
    ensures { IfOk result (λ ids. ids ≡ unwrap_or (form.texts_at name.now (view object.now)) []) }
{
    match object.get(name).and_then(Value::as_array) {
        Some(items) => copied(alloc, items),
        None => Ok(IdList::new(alloc)),
    }
}
