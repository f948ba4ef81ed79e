// The text of a value.
ghost use Rattle.std.specs.Prelude.{◌≡◌, ◌++◌, false, IfOk, OnOk, string_bytes};
ghost use Rattle.serde_json.specs.View.{view, members_view};
ghost use Rattle.serde_json.specs.Written.{compact_text, has_float};
ghost use Rattle.metadata_service.specs.Shown.{key_line, listing, plain_text};

use serde_json::{Map, Value};
use std::alloc::{AllocError, Global};
use vm_types::ByteList;

/// JSON without spaces.
pub fn json_text(alloc: Global, value: &Value) -> Result<ByteList, AllocError>
    requires { has_float (view value.now) ≡ false }
    ensures { IfOk result (λ text. text ≡ compact_text (view value.now)) }
{
    let text = value.to_string(alloc)?;
    Ok(ByteList::from_vec(text.into_bytes()))
}

/// A string's bytes, or an object's listing; nothing else has a text.
pub fn plain_text(alloc: Global, value: &Value) -> Result<Option<ByteList>, AllocError>
    ensures { IfOk result (λ text. text ≡ plain_text (view value.now)) }
{
    match value {
        Value::String(text) => Ok(Some(ByteList::copy_of(alloc, text.as_bytes())?)),
        Value::Object(members) => Ok(Some(listing(alloc, members)?)),
        _ => Ok(None),
    }
}

// The keys, each on a line of its own, with a `/` behind those of objects.
fn listing(alloc: Global, members: &Map<String, Value>) -> Result<ByteList, AllocError>
    ensures { IfOk result (λ text. text ≡ listing false (members_view members.now.entries)) }
{
    let mut text = ByteList::new(alloc);
    let mut later = false;
    for (key, member) in members.iter() {
        append_key(&mut text, later, key, member)?;
        later = true;
    }
    Ok(text)
}

fn append_key(
    text: &mut ByteList,
    later: bool,
    key: &String,
    member: &Value,
) -> Result<(), AllocError>
    ensures { OnOk result (text.new ≡ text.old ++ key_line later (string_bytes key.now) (view member.now)) }
{
    if later {
        text.append(b"\n")?;
    }
    text.append(key.as_bytes())?;
    if member.is_object() {
        text.append(b"/")?;
    }
    Ok(())
}
