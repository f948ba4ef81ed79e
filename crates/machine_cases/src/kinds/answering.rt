// What answers the acts of a network device, a balloon or an entropy device.
use crate::chains::memory::{AVAILABLE, DESCRIPTORS, HEADER, USED, put, read};
use crate::chains::setting::NOTHING;
use crate::kinds::laying::{BEHIND, Setting};
use vm_types::{BoardOp, Op, OutOp, Piece, PortLook, PortOp, QueueShown, Reply};

// The word that is drawn.
const WORD: u64 = 0x0706_0504_0302_0100;

/// The outside of a device: which queues were kicked, guest time and its step, how many frames its link has and how long each is, and
/// how many acts there were on it, of which those from a number on fail.
#[derive(Drop)]
pub struct Outside {
    kicks: u64,
    status: u32,
    now: u64,
    step: u64,
    frames: u64,
    frame: u64,
    link: u64,
    failing: u64,
}

impl Outside {
    pub fn new(setting: &Setting) -> Outside {
        Outside {
            kicks: setting.kicks,
            status: 15,
            now: 0,
            step: setting.step,
            frames: setting.frames,
            frame: setting.frame,
            link: 0,
            failing: setting.failing,
        }
    }
}

fn queue_shown(behind: u64, is_kicked: bool) -> QueueShown {
    QueueShown {
        descriptors: DESCRIPTORS.wrapping_add(behind),
        available: AVAILABLE.wrapping_add(behind),
        used: USED.wrapping_add(behind),
        size: 4,
        is_ready: true,
        is_kicked,
    }
}

// The first look shows the kicks.
fn looked(outside: &mut Outside) -> Reply {
    let kicks = outside.kicks;
    outside.kicks = 0;
    Reply::Port(PortLook {
        first: queue_shown(0, kicks % 2 == 1),
        second: queue_shown(BEHIND, kicks / 2 % 2 == 1),
        third: queue_shown(2 * BEHIND, kicks / 4 % 2 == 1),
        accepted: NOTHING,
        status: outside.status,
        was_reset: false,
    })
}

fn read_letter(at: u64) -> char {
    if at < AVAILABLE {
        'd'
    } else if at < USED {
        if (at - AVAILABLE) % BEHIND == 2 {
            'i'
        } else {
            'r'
        }
    } else {
        'g'
    }
}

fn write_letter(at: u64) -> char {
    if at < USED || HEADER <= at {
        'w'
    } else if (at - USED) % BEHIND == 2 {
        'X'
    } else {
        'U'
    }
}

fn port_answered(outside: &mut Outside, act: &PortOp) -> (char, Reply) {
    match act {
        PortOp::Look => ('L', looked(outside)),
        PortOp::Break => {
            outside.status = 15 + 64;
            ('K', Reply::Word(1))
        }
        PortOp::Interrupt { .. } => ('P', Reply::Done),
    }
}

fn frame_answered(outside: &mut Outside) -> Reply {
    if outside.frames == 0 {
        return Reply::Nothing;
    }
    outside.frames -= 1;
    Reply::Frame {
        length: outside.frame,
    }
}

// A link, whose frames have 7 in each byte, or words whose bytes count up from 0.
fn link_answered(outside: &mut Outside, act: &OutOp) -> (char, Reply) {
    let is_failing = outside.failing <= outside.link;
    outside.link = outside.link.wrapping_add(1);
    let (letter, reply) = match act {
        OutOp::LinkTake => ('t', frame_answered(outside)),
        OutOp::LinkPart { index: _, length } => {
            let length = (*length).min(64) as usize;
            ('p', Reply::Bytes(Piece::from_slice(&[7; 64][..length])))
        }
        OutOp::LinkSend { .. } => ('s', Reply::Done),
        OutOp::LinkEnd => ('e', Reply::Done),
        OutOp::DrawWord => ('o', Reply::Drawn { word: WORD }),
        _ => ('?', Reply::Failed),
    };
    if is_failing {
        (letter, Reply::Failed)
    } else {
        (letter, reply)
    }
}

/// Answers an act, and names it by a letter.
pub fn answered(outside: &mut Outside, memory: &mut [u8], op: &Op) -> (char, Reply) {
    match op {
        Op::Read { at, len } => (read_letter(*at), read(memory, *at, *len)),
        Op::Write { at, piece } => {
            put(memory, *at, piece.as_slice());
            (write_letter(*at), Reply::Done)
        }
        Op::Port { port: _, act } => port_answered(outside, act),
        Op::Out(act) => link_answered(outside, act),
        Op::Board(BoardOp::RaiseLine) => ('B', Reply::Done),
        Op::Board(BoardOp::Time) => {
            let now = outside.now;
            outside.now = now.wrapping_add(outside.step);
            ('T', Reply::Word(now))
        }
        Op::Idle => ('I', Reply::Done),
        _ => ('?', Reply::AccessFault),
    }
}
