// What the words of a command say.
use crate::words::{Numbers, parted};
use vm_types::{ActorId, AmoKind, BoardOp, Op, OutOp, Piece, PortOp, Reply, Shown};

/// An actor and its op.
pub fn act_from(command: &str) -> Option<(ActorId, Op)> {
    let (actor, op) = command.split_once(' ')?;
    Some((actor_of(actor)?, op_from(op)?))
}

fn actor_of(name: &str) -> Option<ActorId> {
    if name == "t" {
        return Some(ActorId::Timer);
    }
    match name.strip_prefix('h') {
        Some(number) => Some(ActorId::Hart(number.parse::<u8>().ok()?)),
        None => Some(ActorId::Device(name.strip_prefix('d')?.parse::<u8>().ok()?)),
    }
}

pub fn op_from(command: &str) -> Option<Op> {
    let (name, numbers) = parted(command)?;
    match access_of(name, numbers) {
        Some(op) => Some(op),
        None => Some(Op::Board(board_op_of(name, numbers)?)),
    }
}

// The bytes of a number, the lowest first.
fn piece_of(len: u64, value: u64) -> Piece {
    let bytes = value.to_le_bytes();
    Piece::from_slice(&bytes[..len.min(8) as usize])
}

fn access_of(name: &str, Numbers { a, b, c, .. }: Numbers) -> Option<Op> {
    Some(match name {
        "read" => Op::Read {
            at: a,
            len: b as usize,
        },
        "write" => Op::Write {
            at: a,
            piece: piece_of(b, c),
        },
        "lr" => Op::Lr {
            at: a,
            wide: b == 8,
        },
        "sc" => Op::Sc {
            at: a,
            value: c,
            wide: b == 8,
        },
        "port" => Op::Port {
            port: (a % 256) as u8,
            act: PortOp::Look,
        },
        "clock" => Op::Out(OutOp::Clock),
        "idle" => Op::Idle,
        _ => Op::Amo {
            at: a,
            value: c,
            kind: amo_of(name)?,
            wide: b == 8,
        },
    })
}

fn amo_of(name: &str) -> Option<AmoKind> {
    match name {
        "amoadd" => Some(AmoKind::Add),
        "amoor" => Some(AmoKind::Or),
        "amomin" => Some(AmoKind::Min),
        "amominu" => Some(AmoKind::MinUnsigned),
        "amoswap" => Some(AmoKind::Swap),
        _ => None,
    }
}

fn board_op_of(name: &str, Numbers { a, b, c, .. }: Numbers) -> Option<BoardOp> {
    match name {
        "look" => Some(BoardOp::Look),
        "putchar" => Some(BoardOp::Putchar {
            byte: (a % 256) as u8,
        }),
        "reset" => Some(BoardOp::Reset { kind: a, reason: b }),
        "time" => Some(BoardOp::Time),
        "sip" => Some(BoardOp::SoftwarePending { clear: a, set: b }),
        "timer" => Some(BoardOp::SetTimer { deadline: a }),
        "ipi" => Some(BoardOp::SendIpi { mask: a, base: b }),
        "start" => Some(BoardOp::StartHart {
            hart: a,
            pc: b,
            word: c,
        }),
        "stop" => Some(BoardOp::StopHart),
        "status" => Some(BoardOp::HartStatus { hart: a }),
        "raise" => Some(BoardOp::RaiseLine),
        "advance" => Some(BoardOp::Advance { nanoseconds: a }),
        _ => None,
    }
}

pub fn reply_from(command: &str) -> Option<Reply> {
    let (name, Numbers { a, b, c, .. }) = parted(command)?;
    match name {
        "done" => Some(Reply::Done),
        "bytes" => Some(Reply::Bytes(piece_of(a, b))),
        "word" => Some(Reply::Word(a)),
        "returned" => Some(Reply::Returned { error: a, value: b }),
        "pending" => Some(Reply::Shown(Shown::Pending(a))),
        "stopped" => Some(Reply::Shown(Shown::Stopped)),
        "begun" => Some(Reply::Shown(Shown::Start {
            pc: a,
            number: b,
            word: c,
        })),
        "full" => Some(Reply::Full),
        "fault" => Some(Reply::AccessFault),
        _ => None,
    }
}
