// What a hart asks for, in few bytes.
ghost use Rattle.std.specs.Prelude.{◌≡◌, ℕ};
ghost use Rattle.vm_types.specs.declared.op.Op.{Op};
ghost use Rattle.vm_types.specs.Fits.{fits, board_fits};
ghost use Rattle.le_fields.specs.Fields.{bytes_of};
ghost use Rattle.rv_rows.specs.Loads.{width_bytes};
ghost use Rattle.rv_doing.specs.HartOps.{op_of, reply_of};

use crate::hart_reply::HartReply;
use le_fields::put64;
use rv_rows::Width;
use vm_types::{AmoKind, BoardOp, Op, Piece};

/// What a hart asks for: an `Op` without its 64 bytes. It is moved at every event, so numbers of eight bytes come
/// first in each variant.
#[derive(Clone, Copy, Drop)]
pub enum HartOp {
    /// The instruction at `pc`.
    Fetch {
        pc: u64,
    },
    Read {
        at: u64,
        width: Width,
    },
    /// The low bytes of the word go to the address, the lowest first.
    Write {
        at: u64,
        word: u64,
        width: Width,
    },
    Amo {
        at: u64,
        value: u64,
        kind: AmoKind,
        wide: bool,
    },
    Lr {
        at: u64,
        wide: bool,
    },
    Sc {
        at: u64,
        value: u64,
        wide: bool,
    },
    Board(BoardOp),
    Idle,
}

/// The low bytes of a value, the lowest first.
fn piece_of(width: Width, value: u64) -> Piece
    ensures { result ≡ bytes_of (width_bytes width) value }
{
    let mut bytes = [0; 8];
    put64(&mut bytes, 0, value);
    match width {
        Width::Byte => Piece::from_slice(&bytes[..1]),
        Width::Half => Piece::from_slice(&bytes[..2]),
        Width::Word => Piece::from_slice(&bytes[..4]),
        Width::Double => Piece::from_slice(&bytes),
    }
}

fn is_board_fit(act: &BoardOp, reply: &HartReply) -> bool
    ensures { result ≡ board_fits act.now (reply_of reply.now) }
{
    match act {
        BoardOp::Look => matches!(reply, HartReply::Shown(_)),
        BoardOp::Putchar { .. } => matches!(reply, HartReply::Done | HartReply::Full),
        BoardOp::Reset { .. }
        | BoardOp::SendIpi { .. }
        | BoardOp::StartHart { .. }
        | BoardOp::HartStatus { .. } => matches!(reply, HartReply::Returned { .. }),
        BoardOp::Time | BoardOp::SoftwarePending { .. } => matches!(reply, HartReply::Word(_)),
        BoardOp::SetTimer { .. }
        | BoardOp::StopHart
        | BoardOp::RaiseLine
        | BoardOp::Advance { .. } => matches!(reply, HartReply::Done),
    }
}

#[tactic(auto, using(crate::proofs::Widths::long_as))]
fn is_read_fit(width: Width, reply: &HartReply) -> bool
    ensures { (at : ℕ) → result ≡ fits (Op.Read at (width_bytes width)) (reply_of reply.now) }
{
    match reply {
        HartReply::Bytes { width: given, .. } => given.bytes() == width.bytes(),
        HartReply::Fault => true,
        _ => false,
    }
}

impl HartOp {
    /// This as an op.
    pub fn op(&self) -> Op
        ensures { result ≡ op_of self.now }
    {
        match self {
            HartOp::Fetch { pc } => Op::Read { at: *pc, len: 4 },
            HartOp::Read { at, width } => Op::Read {
                at: *at,
                len: width.bytes(),
            },
            HartOp::Write { at, word, width } => Op::Write {
                at: *at,
                piece: piece_of(*width, *word),
            },
            HartOp::Amo {
                at,
                value,
                kind,
                wide,
            } => Op::Amo {
                at: *at,
                value: *value,
                kind: *kind,
                wide: *wide,
            },
            HartOp::Lr { at, wide } => Op::Lr {
                at: *at,
                wide: *wide,
            },
            HartOp::Sc { at, value, wide } => Op::Sc {
                at: *at,
                value: *value,
                wide: *wide,
            },
            HartOp::Board(act) => Op::Board(*act),
            HartOp::Idle => Op::Idle,
        }
    }

    /// Whether this may be answered so.
    #[inline]
    pub fn is_fit(&self, reply: &HartReply) -> bool
        ensures { result ≡ fits (op_of self.now) (reply_of reply.now) }
    {
        match self {
            HartOp::Fetch { .. } => is_read_fit(Width::Word, reply),
            HartOp::Read { width, .. } => is_read_fit(*width, reply),
            HartOp::Write { .. } => matches!(reply, HartReply::Done | HartReply::Fault),
            HartOp::Amo { .. } | HartOp::Lr { .. } => {
                matches!(reply, HartReply::Word(_) | HartReply::Fault)
            }
            HartOp::Sc { .. } => match reply {
                HartReply::Word(failed) => *failed <= 1,
                HartReply::Fault => true,
                _ => false,
            },
            HartOp::Board(act) => is_board_fit(act, reply),
            HartOp::Idle => matches!(reply, HartReply::Done),
        }
    }
}
