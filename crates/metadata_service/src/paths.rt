// Where a path leads in a store.
ghost use Rattle.std.specs.Prelude.{◌≡◌, false, option_map, IfSome};
ghost use Rattle.serde_json.specs.View.{view};
ghost use Rattle.serde_json.specs.Written.{has_float};
ghost use Rattle.metadata_service.specs.Paths.{found, keys_of, walk};

use serde_json::Value;

/// The value to which a path leads.
pub fn found<'v>(path: &str, store: &'v Value) -> Option<&'v Value>
    requires { has_float (view store.now) ≡ false }
    ensures value { option_map (λ value. view value.now) result ≡ found path.now (view store.now) }
    ensures whole { IfSome result (λ value. has_float (view value.now) ≡ false) }
{
    let (before, keys) = path.split_once('/')?;
    if before.is_empty() {
        walk(keys, store)
    } else {
        None
    }
}

// The value at each key in turn.
fn walk<'v>(keys: &str, store: &'v Value) -> Option<&'v Value>
    requires { has_float (view store.now) ≡ false }
    ensures value { option_map (λ value. view value.now) result ≡ walk (keys_of keys.now) (view store.now) }
    ensures whole { IfSome result (λ value. has_float (view value.now) ≡ false) }
{
    let mut value = store;
    let mut rest = keys;
    while let Some((key, more)) = rest.split_once('/') {
        value = value.get(key)?;
        rest = more;
    }
    if rest.is_empty() {
        Some(value)
    } else {
        value.get(rest)
    }
}
