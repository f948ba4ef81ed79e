// What a hart is answered, in few bytes.
ghost use Rattle.std.specs.Prelude.{◌≡◌, ◌≤◌, ◌^◌, false, length, MatchOption};
ghost use Rattle.vm_types.specs.declared.reply.Reply.{Reply};
ghost use Rattle.vm_types.specs.Fits.{fits};
ghost use Rattle.le_fields.specs.Fields.{bytes_of};
ghost use Rattle.rv_doing.specs.declared.hart_op.HartOp.{HartOp};
ghost use Rattle.rv_doing.specs.HartOps.{op_of, reply_of};

use le_fields::low_value;
use rv_rows::Width;
use vm_types::{Reply, Shown};

/// What a hart is answered: a `Reply` without its 64 bytes.
#[derive(Clone, Copy, Drop)]
pub enum HartReply {
    /// The access isn't inside RAM, a port or the board, or the place doesn't serve it.
    Fault,
    Done,
    /// The console ring has no room.
    Full,
    /// So many bytes that were read: the low ones of the word, the lowest first.
    Bytes { word: u64, width: Width },
    /// An old value, whether a store-conditional failed, or a moment.
    Word(u64),
    /// An SBI call's error and value.
    Returned { error: u64, value: u64 },
    Shown(Shown),
}

/// The value of at most eight bytes, the lowest first.
fn word_of(bytes: &[u8]) -> u64
    requires { length bytes.now ≤ 8 }
    ensures { bytes_of (length bytes.now) result ≡ bytes.now }
{
    low_value(bytes)
}

fn of_bytes(bytes: &[u8]) -> Option<HartReply>
    ensures { MatchOption result
        ((op : HartOp) → fits (op_of op) (Reply.Bytes bytes.now) ≡ false)
        (λ small. reply_of small ≡ Reply.Bytes bytes.now) }
{
    let width = match bytes.len() {
        1 => Width::Byte,
        2 => Width::Half,
        4 => Width::Word,
        8 => Width::Double,
        _ => return None,
    };
    let word = word_of(bytes);
    Some(HartReply::Bytes { word, width })
}

impl HartReply {
    ghost use Rattle.vm_types.specs.declared.reply.Reply.{Reply};

    /// A reply in few bytes, or `None` where it fits nothing that a hart asks for.
    pub fn of(reply: &Reply) -> Option<HartReply>
        ensures { MatchOption result
            ((op : HartOp) → fits (op_of op) reply.now ≡ false)
            (λ small. reply_of small ≡ reply.now) }
    {
        match reply {
            Reply::AccessFault => Some(HartReply::Fault),
            Reply::Done => Some(HartReply::Done),
            Reply::Full => Some(HartReply::Full),
            Reply::Bytes(piece) => of_bytes(piece.as_slice()),
            Reply::Word(word) => Some(HartReply::Word(*word)),
            Reply::Returned { error, value } => Some(HartReply::Returned {
                error: *error,
                value: *value,
            }),
            Reply::Shown(shown) => Some(HartReply::Shown(*shown)),
            _ => None,
        }
    }
}
