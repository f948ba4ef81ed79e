// The answer to a GET.
ghost use Rattle.std.specs.Prelude.{◌≡◌, false, true, IfOk, IfSome, option_map};
ghost use Rattle.serde_json.specs.View.{view};
ghost use Rattle.serde_json.specs.Written.{has_float};
ghost use Rattle.metadata_service.specs.Service.{is_admitted, look, shown, wants_json};

use crate::headers::header;
use crate::paths::found;
use crate::reply::{Reply, bare, found_text};
use crate::shown::{json_text, plain_text};
use crate::token::{Token, accepts};
use http_stream::Request;
use metadata_store::{MetadataVersion, Store};
use serde_json::Value;
use std::alloc::{AllocError, Global};

/// What a service shows of a store.
pub fn look(
    alloc: Global,
    version: MetadataVersion,
    tokens: &[Token],
    store: &Store,
    request: &Request,
    now: u64,
) -> Result<Reply, AllocError>
    ensures { IfOk result (λ reply. reply ≡ look version tokens.now store.now request.now now) }
{
    if !is_admitted(alloc, version, tokens, request, now)? {
        return Ok(bare(alloc, 401));
    }
    let value = found(request.path.as_str(), store.value());
    shown(alloc, wants_json(request), value)
}

fn is_admitted(
    alloc: Global,
    version: MetadataVersion,
    tokens: &[Token],
    request: &Request,
    now: u64,
) -> Result<bool, AllocError>
    ensures { IfOk result (λ admitted. admitted ≡ is_admitted version tokens.now request.now now) }
{
    match version {
        MetadataVersion::V1 => Ok(true),
        MetadataVersion::V2 => match header(b"x-metadata-token", request) {
            Some(text) => accepts(alloc, now, tokens, text),
            None => Ok(false),
        },
    }
}

fn wants_json(request: &Request) -> bool
    ensures { result ≡ wants_json request.now }
{
    match header(b"accept", request) {
        Some(value) => b"application/json".as_slice() == value,
        None => false,
    }
}

// With its JSON, or its plain text.
fn shown(alloc: Global, json: bool, value: Option<&Value>) -> Result<Reply, AllocError>
    requires { IfSome value (λ value. has_float (view value.now) ≡ false) }
    ensures { IfOk result (λ reply. reply ≡ shown json (option_map (λ value. view value.now) value.entry)) }
{
    let Some(value) = value else {
        return Ok(bare(alloc, 404));
    };
    if json {
        return Ok(found_text(json_text(alloc, value)?));
    }
    match plain_text(alloc, value)? {
        Some(text) => Ok(found_text(text)),
        None => Ok(bare(alloc, 501)),
    }
}
