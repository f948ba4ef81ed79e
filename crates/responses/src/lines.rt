// The lines of what is answered and of what is shown.
ghost use Rattle.std.specs.Prelude.{◌≡◌, ◌++◌, IfOk, OnOk};
ghost use Rattle.responses.specs.Output.{body_part, console_line, reply_line, shown};

use api_rules::Answer;
use itoa::Buffer;
use script_words::hex_digit;
use std::alloc::{AllocError, Global};
use vm_types::ByteList;

/// The line of an answer: `< S`, or `< S BODY`.
pub fn reply_line(alloc: Global, answer: &Answer) -> Result<ByteList, AllocError>
    ensures { IfOk result (λ line. line ≡ reply_line answer.now) }
{
    let mut buffer = Buffer::new();
    let mut line = ByteList::copy_of(alloc, b"< ")?;
    line.append(buffer.format(answer.status).as_bytes())?;
    append_body(&mut line, &answer.body)?;
    line.append(b"\n")?;
    Ok(line)
}

fn append_body(line: &mut ByteList, body: &Option<ByteList>) -> Result<(), AllocError>
    ensures { OnOk result (line.new ≡ line.old ++ body_part body.now) }
{
    if let Some(body) = body {
        line.append(b" ")?;
        line.append(body.as_slice())?;
    }
    Ok(())
}

/// The line of what the console wrote, and no line where it wrote nothing. A byte that no terminal shows
/// as one column is written as `\x` and two digits, and so is the backslash.
pub fn console_line(alloc: Global, bytes: &[u8]) -> Result<ByteList, AllocError>
    ensures { IfOk result (λ line. line ≡ console_line bytes.now) }
{
    if bytes.is_empty() {
        return Ok(ByteList::new(alloc));
    }
    let mut line = ByteList::copy_of(alloc, b"! ")?;
    for byte in bytes {
        append_shown(&mut line, *byte)?;
    }
    line.append(b"\n")?;
    Ok(line)
}

fn append_shown(line: &mut ByteList, byte: u8) -> Result<(), AllocError>
    ensures { OnOk result (line.new ≡ line.old ++ shown byte) }
{
    if b' ' <= byte && byte <= b'~' && byte != b'\\' {
        line.append(&[byte])?;
    } else {
        line.append(&[b'\\', b'x', hex_digit(byte / 16), hex_digit(byte % 16)])?;
    }
    Ok(())
}
