// Items that tell events.
ghost use Rattle.std.specs.Prelude.{◌≡◌, true, IfOk, OnErr};
ghost use Rattle.serve_host.specs.Events.{host_reply, is_received, item_of, needs_room};

use script_text::{HostReply, Item};
use std::alloc::{AllocError, Global};
use vm_types::{ByteList, Entry, Op, Reply};

/// The longest frame of a link.
const LONGEST_FRAME: u64 = 1514;

/// What a host object answered, as a script's line says it. Bytes of a connection alone take memory.
pub fn host_reply(alloc: Global, reply: &Reply) -> Result<HostReply, AllocError>
    ensures said { IfOk result (λ said. said ≡ host_reply reply.now) }
    ensures short { OnErr result (is_received reply.now ≡ true) }
{
    let said = match reply {
        Reply::Done => HostReply::Done,
        Reply::Bytes(piece) => HostReply::Part { piece: *piece },
        Reply::Word(nanoseconds) => HostReply::Now {
            nanoseconds: *nanoseconds,
        },
        Reply::Nothing => HostReply::Nothing,
        Reply::Frame { length } => {
            if *length <= LONGEST_FRAME {
                HostReply::Frame {
                    length: *length as u32,
                }
            } else {
                HostReply::Failed
            }
        }
        Reply::Opened { connection } => HostReply::Opened {
            connection: *connection,
        },
        Reply::Received { piece, connection } => HostReply::Received {
            connection: *connection,
            bytes: ByteList::copy_of(alloc, piece.as_slice())?,
        },
        Reply::Ended { connection } => HostReply::Ended {
            connection: *connection,
        },
        Reply::Dialled { connection } => HostReply::Dialled {
            connection: *connection,
        },
        Reply::Drawn { word } => HostReply::Word { word: *word },
        _ => HostReply::Failed,
    };
    Ok(said)
}

/// The item that tells an event of a slice: an act on a host object is told with its reply, and another event by its
/// actor. Bytes of a connection alone take memory.
pub fn event_item(alloc: Global, event: &Entry) -> Result<Item, AllocError>
    ensures item { IfOk result (λ item. item ≡ item_of event.now) }
    ensures short { OnErr result (needs_room event.now ≡ true) }
{
    match &event.op {
        Op::Out(_) => Ok(Item::Reply {
            actor: event.actor,
            reply: host_reply(alloc, &event.reply)?,
        }),
        _ => Ok(Item::Step {
            actor: event.actor,
            count: 1,
        }),
    }
}
