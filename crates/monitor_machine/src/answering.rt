// Replies of host objects.
ghost use Rattle.std.specs.Prelude.{◌≡◌};
ghost use Rattle.flat_guest.specs.Given.{as_given};
ghost use Rattle.flat_guest.specs.Steps.{is_given};
ghost use Rattle.flat_machine.specs.Given.{reply_given};
ghost use Rattle.hart_trace.specs.Asks.{is_host_op};
ghost use Rattle.monitor_machine.specs.Answering.{TakesReply};

use script_text::{HostReply, Misfit};
use vm_types::{ActorId, Op, Piece, Reply, is_fit};
use vm_world::World;

/// The reply that a line says, or `None` where it has more bytes than a reply can have.
pub fn reply_given(given: &HostReply) -> Option<Reply>
    ensures { as_given result ≡ reply_given given.now }
{
    let reply = match given {
        HostReply::Done => Reply::Done,
        HostReply::Failed => Reply::Failed,
        HostReply::Nothing => Reply::Nothing,
        HostReply::Now { nanoseconds } => Reply::Word(*nanoseconds),
        HostReply::Part { piece } => Reply::Bytes(*piece),
        HostReply::Frame { length } => Reply::Frame {
            length: *length as u64,
        },
        HostReply::Opened { connection } => Reply::Opened {
            connection: *connection,
        },
        HostReply::Received { connection, bytes } => {
            if bytes.len() > Piece::MOST {
                return None;
            }
            Reply::Received {
                piece: Piece::from_slice(bytes.as_slice()),
                connection: *connection,
            }
        }
        HostReply::Ended { connection } => Reply::Ended {
            connection: *connection,
        },
        HostReply::Dialled { connection } => Reply::Dialled {
            connection: *connection,
        },
        HostReply::Word { word } => Reply::Drawn { word: *word },
    };
    Some(reply)
}

fn is_host_op(op: &Op) -> bool
    ensures { result ≡ is_host_op op.now }
{
    matches!(op, Op::Out(_))
}

// Whether an act has what it is to be given: a reply that fits, if it is on a host object, and else nothing.
fn is_given(op: &Op, given: &Option<Reply>) -> bool
    ensures { result ≡ is_given op.now (as_given given.now) }
{
    match (op, given) {
        (Op::Out(_), None) => false,
        (Op::Out(_), Some(reply)) => is_fit(op, reply),
        (_, None) => true,
        (_, Some(_)) => false,
    }
}

/// Gives an actor the reply that it waits for, which makes its event, or says why that doesn't fit.
pub fn take_reply(guest: &mut World, actor: ActorId, given: Option<Reply>) -> Option<Misfit>
    ensures { TakesReply result guest.old actor (as_given given) guest.new }
{
    let Some(op) = guest.want(actor) else {
        return Some(Misfit::NoActor);
    };
    if !is_host_op(&op) {
        return Some(Misfit::NotWaiting);
    }
    if !is_given(&op, &given) {
        return Some(Misfit::Unfit);
    }
    match guest.step_with(actor, op, given) {
        Ok(_) => None,
        Err(_) => Some(Misfit::Unfit),
    }
}
