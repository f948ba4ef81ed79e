// The words that tell an answer.
ghost use Rattle.std.specs.Prelude.{◌≡◌, IfOk};
ghost use Rattle.script_text.specs.declared.item.HostReply.TheVariants as answer;
ghost use Rattle.script_text.specs.Written.{answer_words};

use crate::item::HostReply;
use script_words::{append_hex, append_word, numbered_words};
use std::alloc::{AllocError, Global};
use vm_types::ByteList;

/// The words of an answer.
pub fn answer_words(alloc: Global, reply: &HostReply) -> Result<ByteList, AllocError>
    ensures { IfOk result (λ words. words ≡ answer_words reply.now) }
{
    match reply {
        HostReply::Done => Ok(ByteList::copy_of(alloc, b"ok")?),
        HostReply::Failed => Ok(ByteList::copy_of(alloc, b"fail")?),
        HostReply::Nothing => Ok(ByteList::copy_of(alloc, b"none")?),
        HostReply::Now { nanoseconds } => Ok(numbered_words(alloc, b"now ", *nanoseconds)?),
        HostReply::Part { piece } => Ok(part_words(alloc, piece.as_slice())?),
        HostReply::Frame { length } => Ok(numbered_words(alloc, b"frame ", *length as u64)?),
        HostReply::Opened { connection } => Ok(numbered_words(alloc, b"new ", *connection as u64)?),
        HostReply::Received { connection, bytes } => {
            Ok(received_words(alloc, *connection, bytes.as_slice())?)
        }
        HostReply::Ended { connection } => {
            Ok(numbered_words(alloc, b"ended ", *connection as u64)?)
        }
        HostReply::Dialled { connection } => {
            Ok(numbered_words(alloc, b"dialled ", *connection as u64)?)
        }
        HostReply::Word { word } => Ok(drawn_words(alloc, *word)?),
    }
}

fn part_words(alloc: Global, piece: &[u8]) -> Result<ByteList, AllocError>
    ensures { IfOk result (λ words. words ≡ answer_words (answer.Part piece.now)) }
{
    let mut words = ByteList::copy_of(alloc, b"part ")?;
    append_hex(&mut words, piece)?;
    Ok(words)
}

fn received_words(alloc: Global, connection: u32, bytes: &[u8]) -> Result<ByteList, AllocError>
    ensures { IfOk result (λ words. words ≡ answer_words (answer.Received connection bytes.now)) }
{
    let mut words = numbered_words(alloc, b"bytes ", connection as u64)?;
    words.append(b" ")?;
    append_hex(&mut words, bytes)?;
    Ok(words)
}

fn drawn_words(alloc: Global, word: u64) -> Result<ByteList, AllocError>
    ensures { IfOk result (λ words. words ≡ answer_words (answer.Word word)) }
{
    let mut words = ByteList::copy_of(alloc, b"word ")?;
    append_word(&mut words, word)?;
    Ok(words)
}
