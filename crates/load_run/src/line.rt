// The line of a run.
ghost use Rattle.std.specs.Prelude.{◌≡◌, ◌++◌, IfOk, OnOk};
ghost use Rattle.load_run.specs.Line.{backward, number_said, run_line, said};

use script_words::{append_number, numbered_words};
use std::alloc::{AllocError, Global};
use vm_types::ByteList;

// The line of the run of this number, whose machines show these words.
pub fn run_line(
    alloc: Global,
    number: u32,
    rounds: u32,
    pages: u64,
    source: &[u8],
    restored: &[u8],
) -> Result<ByteList, AllocError>
    ensures { IfOk result (λ line. line ≡ run_line number rounds pages source.now restored.now) }
{
    let mut line = numbered_words(alloc, b"run ", number as u64)?;
    line.append(b" rounds ")?;
    append_number(&mut line, rounds as u64)?;
    line.append(b" pages ")?;
    append_number(&mut line, pages)?;
    line.append(b" source ")?;
    line.append(source)?;
    line.append(b" restored ")?;
    line.append(restored)?;
    line.append(b"\n")?;
    Ok(line)
}

// What an answer says: what stands between its sign and a space, and its LF.
pub fn said(line: &[u8]) -> &[u8]
    ensures { result.now ≡ said line.now }
{
    if line.len() < 3 {
        return &[];
    }
    &line[2..line.len() - 1]
}

// Puts the number at the end that an answer says as bytes of memory.
pub fn append_number_said(words: &mut ByteList, line: &[u8]) -> Result<(), AllocError>
    ensures { OnOk result (words.new ≡ words.old ++ number_said line.now) }
{
    match line {
        [] => Ok(()),
        [b'=', ..] => append_backward(words, said(line)),
        [..] => words.append(said(line)),
    }
}

// Puts bytes of two digits each at the end, the last byte first.
fn append_backward(words: &mut ByteList, digits: &[u8]) -> Result<(), AllocError>
    ensures { OnOk result (words.new ≡ words.old ++ backward digits.now) }
{
    match digits {
        [high, low, rest @ ..] => {
            append_backward(words, rest)?;
            words.append(&[*high, *low])
        }
        [..] => words.append(digits),
    }
}
