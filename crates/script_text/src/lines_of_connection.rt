// The lines of the connection: `conn`, `bytes` and `api`.
ghost use Rattle.std.specs.Prelude.{◌≡◌, codes, option_map, IfOk, MatchOption, None, Some};
ghost use Rattle.script_text.specs.declared.item.Item.TheVariants as item;
ghost use Rattle.script_text.specs.Items.{api_of, connection_line, target_of};
ghost use Rattle.script_words.specs.Numbers.{bytes_of};
ghost use Rattle.script_words.specs.Words.{after};

use crate::item::Item;
use script_words::{behind, bytes_from, cut, is_line};
use std::alloc::{AllocError, Global};
use vm_types::ByteList;

pub fn connection_line_from(alloc: Global, line: &[u8]) -> Result<Option<Item>, AllocError>
    ensures { IfOk result (λ item. item ≡ connection_line line.now) }
{
    if is_line(b"conn", line) {
        return Ok(Some(Item::Connect));
    }
    if let Some(item) = bytes_line_from(alloc, line)? {
        return Ok(Some(item));
    }
    Ok(api_from(alloc, line)?)
}

// `bytes HEX`
fn bytes_line_from(alloc: Global, line: &[u8]) -> Result<Option<Item>, AllocError>
    ensures { IfOk result (λ it. it ≡ option_map item.Bytes (after (codes "bytes ") bytes_of line.now)) }
{
    let Some(rest) = behind(b"bytes ", line) else {
        return Ok(None);
    };
    match bytes_from(alloc, rest)? {
        Some(bytes) => Ok(Some(Item::Bytes { bytes })),
        None => Ok(None),
    }
}

// `api METHOD PATH` or `api METHOD PATH BODY`
fn api_from(alloc: Global, line: &[u8]) -> Result<Option<Item>, AllocError>
    ensures { IfOk result (λ item. item ≡ after (codes "api ") api_of line.now) }
{
    match behind(b"api ", line) {
        Some(rest) => Ok(call_from(alloc, rest)?),
        None => Ok(None),
    }
}

fn call_from(alloc: Global, rest: &[u8]) -> Result<Option<Item>, AllocError>
    ensures { IfOk result (λ item. item ≡ api_of rest.now) }
{
    let Some((method, rest)) = cut(rest) else {
        return Ok(None);
    };
    let Some((path, body)) = target_from(rest) else {
        return Ok(None);
    };
    if method.is_empty() {
        return Ok(None);
    }
    Ok(Some(Item::Api {
        method: ByteList::copy_of(alloc, method)?,
        path: ByteList::copy_of(alloc, path)?,
        body: ByteList::copy_of(alloc, body)?,
    }))
}

fn target_from(rest: &[u8]) -> Option<(&[u8], &[u8])>
    ensures { MatchOption result (target_of rest.now ≡ None)
        (λ target. target_of rest.now ≡ Some (target.0.now, target.1.now)) }
{
    match cut(rest) {
        Some((path, body)) => if path.is_empty() {
            None
        } else {
            Some((path, body))
        },
        None => if rest.is_empty() {
            None
        } else {
            Some((rest, &[]))
        },
    }
}
