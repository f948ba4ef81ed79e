// A copy of an item.
ghost use Rattle.std.specs.Prelude.{◌≡◌, IfOk};

use script_text::{HostReply, Item};
use std::alloc::{AllocError, Global};
use vm_types::{ByteList, TextList};

pub(crate) fn item_copy(alloc: Global, item: &Item) -> Result<Item, AllocError>
    ensures { IfOk result (λ copy. copy ≡ item.now) }
{
    let copy = match item {
        Item::Nothing => Item::Nothing,
        Item::File { name, content } => Item::File {
            name: TextList::copy_of(alloc, name.as_str())?,
            content: ByteList::copy_of(alloc, content.as_slice())?,
        },
        Item::Lineage { lineage } => Item::Lineage { lineage: *lineage },
        Item::Connect => Item::Connect,
        Item::Bytes { bytes } => Item::Bytes {
            bytes: ByteList::copy_of(alloc, bytes.as_slice())?,
        },
        Item::Api { method, path, body } => Item::Api {
            method: ByteList::copy_of(alloc, method.as_slice())?,
            path: ByteList::copy_of(alloc, path.as_slice())?,
            body: ByteList::copy_of(alloc, body.as_slice())?,
        },
        Item::Step { actor, count } => Item::Step {
            actor: *actor,
            count: *count,
        },
        Item::Reply { actor, reply } => Item::Reply {
            actor: *actor,
            reply: reply_copy(alloc, reply)?,
        },
        Item::Console => Item::Console,
        Item::Register { hart, number } => Item::Register {
            hart: *hart,
            number: *number,
        },
        Item::Memory { address, length } => Item::Memory {
            address: *address,
            length: *length,
        },
    };
    Ok(copy)
}

fn reply_copy(alloc: Global, reply: &HostReply) -> Result<HostReply, AllocError>
    ensures { IfOk result (λ copy. copy ≡ reply.now) }
{
    let copy = match reply {
        HostReply::Done => HostReply::Done,
        HostReply::Failed => HostReply::Failed,
        HostReply::Nothing => HostReply::Nothing,
        HostReply::Now { nanoseconds } => HostReply::Now {
            nanoseconds: *nanoseconds,
        },
        HostReply::Part { piece } => HostReply::Part { piece: *piece },
        HostReply::Frame { length } => HostReply::Frame { length: *length },
        HostReply::Opened { connection } => HostReply::Opened {
            connection: *connection,
        },
        HostReply::Received { connection, bytes } => HostReply::Received {
            connection: *connection,
            bytes: ByteList::copy_of(alloc, bytes.as_slice())?,
        },
        HostReply::Ended { connection } => HostReply::Ended {
            connection: *connection,
        },
        HostReply::Dialled { connection } => HostReply::Dialled {
            connection: *connection,
        },
        HostReply::Word { word } => HostReply::Word { word: *word },
    };
    Ok(copy)
}
