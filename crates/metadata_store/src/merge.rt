// JSON Merge Patch (RFC 7396, 2).
ghost use Rattle.std.specs.Prelude.{◌≡◌, IfOk, OnOk, string_bytes};
ghost use Rattle.serde_json.specs.Data.{member, no_members};
ghost use Rattle.serde_json.specs.View.{view, members_view};
ghost use Rattle.metadata_store.specs.MergePatch.{merge_patch, merge_members, members_of};

use serde_json::{Map, Value};
use std::alloc::{AllocError, Global};

/// What a patch makes of a target.
#[cycle(merge)]
pub fn merge(alloc: Global, patch: &Value, target: &Value) -> Result<Value, AllocError>
    ensures { IfOk result (λ merged. view merged ≡ merge_patch (view target.now) (view patch.now)) }
{
    match patch {
        Value::Object(changes) => {
            let members = merge_members(alloc, changes, members_of(alloc, target.clone()?))?;
            Ok(Value::Object(members))
        }
        _ => patch.clone(),
    }
}

// What isn't an object has no members.
fn members_of(alloc: Global, value: Value) -> Map<String, Value>
    ensures { members_view result.entries ≡ members_of (view value) }
{
    match value {
        Value::Object(members) => members,
        _ => Map::new(alloc),
    }
}

#[cycle(merge)]
fn merge_members(
    alloc: Global,
    changes: &Map<String, Value>,
    mut members: Map<String, Value>,
) -> Result<Map<String, Value>, AllocError>
    ensures { IfOk result (λ merged. members_view merged.entries
        ≡ merge_members (members_view members.entries) (members_view changes.now.entries)) }
{
    for (name, change) in changes.iter() {
        merge_member(alloc, change, name, &mut members)?;
    }
    Ok(members)
}

#[cycle(merge)]
fn merge_member(
    alloc: Global,
    change: &Value,
    name: &String,
    members: &mut Map<String, Value>,
) -> Result<(), AllocError>
    ensures { OnOk result (members_view members.new.entries
        ≡ merge_members (members_view members.old.entries)
        (member (string_bytes name.now) (view change.now) no_members)) }
{
    if change.is_null() {
        drop(members.remove(name.as_str()));
        return Ok(());
    }
    let nothing = Value::Null;
    let old = members.get(name.as_str()).unwrap_or(&nothing);
    let merged = merge(alloc, change, old)?;
    drop(members.insert(name.clone()?, merged)?);
    Ok(())
}
