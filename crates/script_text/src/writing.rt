// The line that an item is written as.
ghost use Rattle.std.specs.Prelude.{◌≡◌, ◌++◌, ◌∷◌, [], codes, IfOk, OnOk};
ghost use Rattle.script_text.specs.declared.item.Item.TheVariants as item;
ghost use Rattle.script_words.specs.Numbers.{hex_of};
ghost use Rattle.script_text.specs.Written.{body_words, line_of};

use crate::item::{HostReply, Item};
use crate::telling::answer_words;
use script_words::{actor_word, append_hex, append_number, append_word};
use std::alloc::{AllocError, Global};
use vm_types::{ActorId, ByteList};

/// The line of an item, with its LF.
pub fn write_item(alloc: Global, item: &Item) -> Result<ByteList, AllocError>
    ensures { IfOk result (λ line. line ≡ line_of item.now ++ 10 ∷ []) }
{
    let mut line = item_line(alloc, item)?;
    line.append(b"\n")?;
    Ok(line)
}

fn item_line(alloc: Global, item: &Item) -> Result<ByteList, AllocError>
    ensures { IfOk result (λ line. line ≡ line_of item.now) }
{
    match item {
        Item::Nothing => Ok(ByteList::new(alloc)),
        Item::File { name, content } => {
            Ok(file_line(alloc, name.as_bytes(), content.as_slice())?)
        }
        Item::Lineage { lineage } => Ok(lineage_line(alloc, *lineage)?),
        Item::Connect => Ok(ByteList::copy_of(alloc, b"conn")?),
        Item::Bytes { bytes } => Ok(bytes_line(alloc, bytes.as_slice())?),
        Item::Api { method, path, body } => Ok(api_line(
            alloc,
            method.as_slice(),
            path.as_slice(),
            body.as_slice(),
        )?),
        Item::Step { actor, count } => Ok(step_line(alloc, *actor, *count)?),
        Item::Reply { actor, reply } => Ok(reply_line(alloc, *actor, reply)?),
        Item::Console => Ok(ByteList::copy_of(alloc, b"console")?),
        Item::Register { hart, number } => Ok(register_line(alloc, *hart, *number)?),
        Item::Memory { address, length } => Ok(memory_line(alloc, *address, *length)?),
    }
}

fn file_line(alloc: Global, name: &[u8], content: &[u8]) -> Result<ByteList, AllocError>
    ensures { IfOk result (λ line. line ≡ line_of (item.File name.now content.now)) }
{
    let mut line = ByteList::copy_of(alloc, b"file ")?;
    line.append(name)?;
    line.append(b" ")?;
    append_hex(&mut line, content)?;
    Ok(line)
}

fn lineage_line(alloc: Global, lineage: u64) -> Result<ByteList, AllocError>
    ensures { IfOk result (λ line. line ≡ line_of (item.Lineage lineage)) }
{
    let mut line = ByteList::copy_of(alloc, b"lineage ")?;
    append_word(&mut line, lineage)?;
    Ok(line)
}

fn bytes_line(alloc: Global, bytes: &[u8]) -> Result<ByteList, AllocError>
    ensures { IfOk result (λ line. line ≡ line_of (item.Bytes bytes.now)) }
{
    let mut line = ByteList::copy_of(alloc, b"bytes ")?;
    append_hex(&mut line, bytes)?;
    Ok(line)
}

fn api_line(alloc: Global, method: &[u8], path: &[u8], body: &[u8]) -> Result<ByteList, AllocError>
    ensures { IfOk result (λ line. line ≡ line_of (item.Api method.now path.now body.now)) }
{
    let mut line = ByteList::copy_of(alloc, b"api ")?;
    line.append(method)?;
    line.append(b" ")?;
    line.append(path)?;
    append_body(&mut line, body)?;
    Ok(line)
}

fn append_body(line: &mut ByteList, body: &[u8]) -> Result<(), AllocError>
    ensures { OnOk result (line.new ≡ line.old ++ body_words body.now) }
{
    if !body.is_empty() {
        line.append(b" ")?;
        line.append(body)?;
    }
    Ok(())
}

fn step_line(alloc: Global, actor: ActorId, count: u64) -> Result<ByteList, AllocError>
    ensures { IfOk result (λ line. line ≡ line_of (item.Step actor count)) }
{
    let actor = actor_word(alloc, actor)?;
    let mut line = ByteList::copy_of(alloc, b"step ")?;
    line.append(actor.as_slice())?;
    line.append(b" ")?;
    append_number(&mut line, count)?;
    Ok(line)
}

fn reply_line(alloc: Global, actor: ActorId, reply: &HostReply) -> Result<ByteList, AllocError>
    ensures { IfOk result (λ line. line ≡ line_of (item.Reply actor reply.now)) }
{
    let actor = actor_word(alloc, actor)?;
    let answer = answer_words(alloc, reply)?;
    let mut line = ByteList::copy_of(alloc, b"reply ")?;
    line.append(actor.as_slice())?;
    line.append(b" ")?;
    line.append(answer.as_slice())?;
    Ok(line)
}

fn register_line(alloc: Global, hart: u8, number: u8) -> Result<ByteList, AllocError>
    ensures { IfOk result (λ line. line ≡ line_of (item.Register hart number)) }
{
    let actor = actor_word(alloc, ActorId::Hart(hart))?;
    let mut line = ByteList::copy_of(alloc, b"reg ")?;
    line.append(actor.as_slice())?;
    line.append(b" ")?;
    append_number(&mut line, number as u64)?;
    Ok(line)
}

fn memory_line(alloc: Global, address: u64, length: usize) -> Result<ByteList, AllocError>
    ensures { IfOk result (λ line. line ≡ line_of (item.Memory address length)) }
{
    let digits = format!(in alloc; "{address:x}")?;
    let mut line = ByteList::copy_of(alloc, b"mem ")?;
    line.append(digits.as_bytes())?;
    line.append(b" ")?;
    append_number(&mut line, length as u64)?;
    Ok(line)
}
