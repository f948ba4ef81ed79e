// The bytes of a reply.
ghost use Rattle.std.specs.Prelude.{◌≡◌, ◌++◌, IfOk, string_bytes};
ghost use Rattle.http_stream.specs.Reply.{connection, empty_head, head, phrase, reply};

use http::StatusCode;
use std::alloc::{AllocError, Global};
use vm_types::ByteList;

/// The bytes of a reply in HTTP/1.1: of status 204 a head alone, and else a head and a body in JSON. `close`
/// says that the connection ends with it. A status that HTTP has no phrase for gets an empty one.
pub fn write_reply(
    alloc: Global,
    status: u16,
    body: &[u8],
    close: bool,
) -> Result<ByteList, AllocError>
    ensures { IfOk result (λ bytes. bytes ≡ reply status body.now close) }
{
    if status == 204 {
        return Ok(ByteList::from_vec(empty_head(alloc, close)?.into_bytes()));
    }
    let head = head(alloc, status, phrase(status), connection(close), body.len())?;
    let mut bytes = head.into_bytes();
    bytes.extend_from_slice(body)?;
    Ok(ByteList::from_vec(bytes))
}

fn empty_head(alloc: Global, close: bool) -> Result<String, AllocError>
    ensures { IfOk result (λ text. string_bytes text ≡ empty_head close) }
{
    let connection = connection(close);
    format!(in alloc; "HTTP/1.1 204 No Content\r\nConnection: {connection}\r\n\r\n")
}

fn head(
    alloc: Global,
    status: u16,
    phrase: &str,
    connection: &str,
    length: usize,
) -> Result<String, AllocError>
    ensures { IfOk result (λ text. string_bytes text ≡ head status phrase.now connection.now length) }
{
    format!(in alloc;
        "HTTP/1.1 {status} {phrase}\r\nConnection: {connection}\r\nContent-Type: application/json\r\nContent-Length: {length}\r\n\r\n"
    )
}

fn connection(close: bool) -> &'static str
    ensures { result.now ≡ connection close }
{
    if close { "close" } else { "keep-alive" }
}

#[tactic(auto, unfolding(http_stream::specs::Reply::phrase))]
fn phrase(status: u16) -> &'static str
    ensures { result.now ≡ phrase status }
{
    match StatusCode::from_u16(status) {
        Ok(code) => code.canonical_reason().unwrap_or(""),
        Err(_) => "",
    }
}
