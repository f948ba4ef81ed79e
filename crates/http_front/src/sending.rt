// The bytes of a request.
ghost use Rattle.std.specs.Prelude.{◌≡◌, IfOk, string_bytes};
ghost use Rattle.http_stream.specs.Sent.{length_line, sent};

use std::alloc::{AllocError, Global};
use vm_types::ByteList;

/// The bytes that send a request of this method, path and body, with the length of the body as its one header.
/// The method and the path are taken as they are: whether they make a head is for the reader to say.
pub fn write_request(
    alloc: Global,
    method: &[u8],
    path: &[u8],
    body: &[u8],
) -> Result<ByteList, AllocError>
    ensures { IfOk result (λ bytes. bytes ≡ sent method.now path.now body.now) }
{
    let length = length_line(alloc, body.len())?;
    let mut bytes = ByteList::copy_of(alloc, method)?;
    bytes.append(b" ")?;
    bytes.append(path)?;
    bytes.append(length.as_bytes())?;
    bytes.append(body)?;
    Ok(bytes)
}

fn length_line(alloc: Global, length: usize) -> Result<String, AllocError>
    ensures { IfOk result (λ text. string_bytes text ≡ length_line length) }
{
    format!(in alloc; " HTTP/1.1\r\nContent-Length: {length}\r\n\r\n")
}
