// The acts of a block device over a small memory.
use crate::chains::memory::{AVAILABLE, HEADER, PAGES, PLACE, STATUS, USED, put, read};
use crate::chains::setting::Setting;
use block_device::{BlockData, new_block_device};
use std::alloc::AllocError;
use vm_types::{Actor, BoardOp, Op, OutOp, Piece, PortLook, PortOp, QueueShown, Reply};

// "root" and zeros.
const ID: [u8; 20] = [
    0x72, 0x6f, 0x6f, 0x74, 0, 0, 0, 0, 0, 0, 0, 0, 0, 0, 0, 0, 0, 0, 0, 0,
];

const NONE: QueueShown = QueueShown {
    descriptors: 0,
    available: 0,
    used: 0,
    size: 0,
    is_ready: false,
    is_kicked: false,
};

/// The outside of the device: whether its queue was kicked, the port's Status, how many acts of the disk there were, and guest time.
#[derive(Drop)]
struct Outside {
    is_kicked: bool,
    status: u32,
    disk: u64,
    now: u64,
}

fn read_letter(setting: &Setting, at: u64) -> char {
    if at == AVAILABLE + 2 {
        'i'
    } else if at == setting.used_event() {
        'e'
    } else if at < AVAILABLE {
        'd'
    } else if at < USED {
        'r'
    } else if at < PLACE {
        'h'
    } else {
        'g'
    }
}

fn write_letter(setting: &Setting, at: u64) -> char {
    if at == USED + 2 {
        'X'
    } else if at == setting.avail_event() {
        'a'
    } else if at < HEADER {
        'U'
    } else if at < STATUS {
        'w'
    } else {
        's'
    }
}

// The reply of the disk: a unit has its part's number in each byte.
fn disk_answered(outside: &mut Outside, setting: &Setting, act: &OutOp) -> (char, Reply) {
    let is_failing = setting.failing <= outside.disk;
    outside.disk = outside.disk.wrapping_add(1);
    let (letter, reply) = match act {
        OutOp::DiskRead { sector: _, part } => (
            'D',
            Reply::Bytes(Piece::from_slice(&[(*part % 8) as u8; 64])),
        ),
        OutOp::DiskWrite { .. } => ('W', Reply::Done),
        OutOp::DiskFlush => ('F', Reply::Done),
        _ => ('?', Reply::Failed),
    };
    if is_failing {
        (letter, Reply::Failed)
    } else {
        (letter, reply)
    }
}

fn port_answered(outside: &mut Outside, setting: &Setting, act: &PortOp) -> (char, Reply) {
    match act {
        PortOp::Look => {
            let shown = PortLook {
                first: setting.queue_shown(outside.is_kicked),
                second: NONE,
                third: NONE,
                accepted: setting.accepted,
                status: outside.status,
                was_reset: false,
            };
            outside.is_kicked = false;
            ('L', Reply::Port(shown))
        }
        PortOp::Break => {
            outside.status = 15 + 64;
            ('K', Reply::Word(1))
        }
        PortOp::Interrupt { .. } => ('P', Reply::Done),
    }
}

// Answers an act, and names it by a letter.
fn answered(outside: &mut Outside, memory: &mut [u8], setting: &Setting, op: &Op) -> (char, Reply) {
    match op {
        Op::Read { at, len } => (read_letter(setting, *at), read(memory, *at, *len)),
        Op::Write { at, piece } => {
            put(memory, *at, piece.as_slice());
            (write_letter(setting, *at), Reply::Done)
        }
        Op::Port { port: _, act } => port_answered(outside, setting, act),
        Op::Out(act) => disk_answered(outside, setting, act),
        Op::Board(BoardOp::RaiseLine) => ('B', Reply::Done),
        Op::Board(BoardOp::Time) => {
            let now = outside.now;
            outside.now = now.wrapping_add(setting.step);
            ('T', Reply::Word(now))
        }
        Op::Idle => ('I', Reply::Done),
        _ => ('?', Reply::AccessFault),
    }
}

/// Puts the letters of a device's acts at the end, whose first look shows a kick.
pub fn add_acts(text: &mut String, memory: &mut [u8], setting: &Setting) -> Result<(), AllocError> {
    let facts = BlockData {
        sectors: setting.sectors,
        drive_id: ID,
        is_read_only: setting.is_read_only,
        limits: setting.limits(),
    };
    let mut block = new_block_device(0, PAGES, facts);
    let mut outside = Outside {
        is_kicked: true,
        status: 15,
        disk: 0,
        now: 0,
    };
    for _ in 0..setting.acts {
        let op = block.want();
        let (letter, reply) = answered(&mut outside, memory, setting, &op);
        text.push(letter)?;
        block.give(reply);
    }
    Ok(())
}
