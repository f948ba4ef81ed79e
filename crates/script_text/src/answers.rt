// What a host object is said to answer.
ghost use Rattle.std.specs.Prelude.{◌≡◌, codes, IfOk};
ghost use Rattle.script_text.specs.Items.{answer_of, drawn_answer, numbered_answer, part_of, plain_answer, received_of, short_part};
ghost use Rattle.script_words.specs.Words.{after};

use crate::item::HostReply;
use script_words::{
    behind, bytes_from, cut, is_line, number_within, numbered, numbered_32, word_from,
};
use std::alloc::{AllocError, Global};
use vm_types::Piece;

/// The answer that these words tell.
pub fn answer_from(alloc: Global, rest: &[u8]) -> Result<Option<HostReply>, AllocError>
    ensures { IfOk result (λ reply. reply ≡ answer_of rest.now) }
{
    if let Some(reply) = plain_answer(rest) {
        return Ok(Some(reply));
    }
    if let Some(reply) = numbered_answer(rest) {
        return Ok(Some(reply));
    }
    if let Some(reply) = part_answer(alloc, rest)? {
        return Ok(Some(reply));
    }
    if let Some(reply) = received_answer(alloc, rest)? {
        return Ok(Some(reply));
    }
    Ok(drawn_answer(alloc, rest)?)
}

fn plain_answer(rest: &[u8]) -> Option<HostReply>
    ensures { result ≡ plain_answer rest.now }
{
    if is_line(b"ok", rest) {
        Some(HostReply::Done)
    } else if is_line(b"fail", rest) {
        Some(HostReply::Failed)
    } else if is_line(b"none", rest) {
        Some(HostReply::Nothing)
    } else {
        None
    }
}

fn numbered_answer(rest: &[u8]) -> Option<HostReply>
    ensures { result ≡ numbered_answer rest.now }
{
    if let Some(nanoseconds) = numbered(b"now ", u64::MAX, rest) {
        return Some(HostReply::Now { nanoseconds });
    }
    if let Some(length) = numbered_32(b"frame ", rest) {
        return Some(HostReply::Frame { length });
    }
    if let Some(connection) = numbered_32(b"new ", rest) {
        return Some(HostReply::Opened { connection });
    }
    if let Some(connection) = numbered_32(b"ended ", rest) {
        return Some(HostReply::Ended { connection });
    }
    let connection = numbered_32(b"dialled ", rest)?;
    Some(HostReply::Dialled { connection })
}

// `part HEX`
fn part_answer(alloc: Global, rest: &[u8]) -> Result<Option<HostReply>, AllocError>
    ensures { IfOk result (λ reply. reply ≡ after (codes "part ") part_of rest.now) }
{
    match behind(b"part ", rest) {
        Some(text) => Ok(part_from(alloc, text)?),
        None => Ok(None),
    }
}

fn part_from(alloc: Global, text: &[u8]) -> Result<Option<HostReply>, AllocError>
    ensures { IfOk result (λ reply. reply ≡ part_of text.now) }
{
    match bytes_from(alloc, text)? {
        Some(bytes) => Ok(short_part(bytes.as_slice())),
        None => Ok(None),
    }
}

fn short_part(bytes: &[u8]) -> Option<HostReply>
    ensures { result ≡ short_part bytes.now }
{
    if bytes.len() <= Piece::MOST {
        Some(HostReply::Part {
            piece: Piece::from_slice(bytes),
        })
    } else {
        None
    }
}

// `bytes C HEX`
fn received_answer(alloc: Global, rest: &[u8]) -> Result<Option<HostReply>, AllocError>
    ensures { IfOk result (λ reply. reply ≡ after (codes "bytes ") received_of rest.now) }
{
    match behind(b"bytes ", rest) {
        Some(text) => Ok(received_from(alloc, text)?),
        None => Ok(None),
    }
}

fn received_from(alloc: Global, text: &[u8]) -> Result<Option<HostReply>, AllocError>
    ensures { IfOk result (λ reply. reply ≡ received_of text.now) }
{
    let Some((word, digits)) = cut(text) else {
        return Ok(None);
    };
    let Some(connection) = number_within(word, 0, 0xffff_ffff) else {
        return Ok(None);
    };
    match bytes_from(alloc, digits)? {
        Some(bytes) => Ok(Some(HostReply::Received {
            connection: connection as u32,
            bytes,
        })),
        None => Ok(None),
    }
}

// `word W`
fn drawn_answer(alloc: Global, rest: &[u8]) -> Result<Option<HostReply>, AllocError>
    ensures { IfOk result (λ reply. reply ≡ drawn_answer rest.now) }
{
    let Some(text) = behind(b"word ", rest) else {
        return Ok(None);
    };
    match word_from(alloc, text)? {
        Some(word) => Ok(Some(HostReply::Word { word })),
        None => Ok(None),
    }
}
