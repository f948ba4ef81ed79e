// What a filler does, and what comes between its acts.
use crate::chains::memory::{AVAILABLE, DESCRIPTORS, PAGES, PLACE, STATUS, USED, put, read};
use crate::chains::setting::NOTHING;
use crate::words::{Numbers, numbers_in};
use filler_device::{FillerChange, FillerKind};
use queue_device::QueueRounds;
use rate_gate::{Bucket, RateGate};
use std::alloc::AllocError;
use vm_types::{Actor, BoardOp, Op, PortLook, PortOp, QueueShown, Reply};

// The second queue's tables stand so far behind those of the first.
const BEHIND: u64 = 0x800;

/// The outside of the device, and which act is to come before which something else comes.
#[derive(Clone, Copy, Drop)]
struct Setting {
    acts: u64,
    kicks: u64,
    size: u64,
    ms: u64,
    step: u64,
    now: u64,
    unlimited: u64,
    limited: u64,
    reset: u64,
    is_reset: bool,
}

const PLAIN: Setting = Setting {
    acts: 0,
    kicks: 0,
    size: 0,
    ms: 0,
    step: 0,
    now: 0,
    unlimited: u64::MAX,
    limited: u64::MAX,
    reset: u64::MAX,
    is_reset: false,
};

fn set(setting: &mut Setting, memory: &mut [u8], name: &str, values: Numbers) -> Option<()> {
    match name {
        "acts" => setting.acts = values.a,
        "kicks" => setting.kicks = values.a,
        "limit" => {
            setting.size = values.a;
            setting.ms = values.b;
        }
        "step" => setting.step = values.a,
        "unlimited" => setting.unlimited = values.a,
        "limited" => setting.limited = values.a,
        "reset" => setting.reset = values.a,
        "chains" => {
            put(memory, AVAILABLE + 2, &[(values.a % 0x100) as u8]);
            put(memory, AVAILABLE + BEHIND + 2, &[(values.b % 0x100) as u8]);
        }
        _ => return None,
    }
    Some(())
}

// A chain of each queue is one part: 64 bytes that are written, and a byte that is read.
fn setting_from(memory: &mut [u8], case: &str) -> Option<Setting> {
    let mut setting = PLAIN;
    memory.fill(0);
    put(
        memory,
        DESCRIPTORS,
        &[0, 0x40, 0, 0x80, 0, 0, 0, 0, 64, 0, 0, 0, 2],
    );
    put(
        memory,
        DESCRIPTORS + BEHIND,
        &[0, 0x50, 0, 0x80, 0, 0, 0, 0, 1],
    );
    put(memory, STATUS, &[9]);
    for word in case.split(' ') {
        let (name, text) = word.split_once('=')?;
        set(&mut setting, memory, name, numbers_in(text, ':')?)?;
    }
    Some(setting)
}

// A new bucket, by numbers of 16 bits.
fn bucket(setting: &Setting) -> Option<Bucket> {
    Bucket::new(setting.size % 0x1_0000, 0, setting.ms % 0x1_0000)
}

fn queue_shown(behind: u64, is_kicked: bool) -> QueueShown {
    QueueShown {
        descriptors: DESCRIPTORS.wrapping_add(behind),
        available: AVAILABLE.wrapping_add(behind),
        used: USED.wrapping_add(behind),
        size: 4,
        is_ready: true,
        is_kicked,
    }
}

const NONE: QueueShown = QueueShown {
    descriptors: 0,
    available: 0,
    used: 0,
    size: 0,
    is_ready: false,
    is_kicked: false,
};

// The first look shows the kicks, and the one behind a reset no queue.
fn looked(setting: &mut Setting) -> Reply {
    let kicks = setting.kicks;
    setting.kicks = 0;
    let was_reset = setting.is_reset;
    setting.is_reset = false;
    if was_reset {
        return Reply::Port(PortLook {
            first: NONE,
            second: NONE,
            third: NONE,
            accepted: NOTHING,
            status: 0,
            was_reset,
        });
    }
    Reply::Port(PortLook {
        first: queue_shown(0, kicks % 2 == 1),
        second: queue_shown(BEHIND, kicks / 2 % 2 == 1),
        third: NONE,
        accepted: NOTHING,
        status: 15,
        was_reset,
    })
}

// Letters of the first queue, and of the second.
fn read_letter(at: u64) -> char {
    if at == AVAILABLE + 2 {
        'i'
    } else if at == AVAILABLE + BEHIND + 2 {
        'j'
    } else if at < DESCRIPTORS + BEHIND {
        'd'
    } else if at < AVAILABLE {
        'e'
    } else if at < AVAILABLE + BEHIND {
        'r'
    } else if at < USED {
        's'
    } else {
        'g'
    }
}

fn write_letter(at: u64) -> char {
    if at == USED + 2 {
        'X'
    } else if at == USED + BEHIND + 2 {
        'Y'
    } else if at < USED + BEHIND {
        'U'
    } else if at < PLACE {
        'V'
    } else {
        'w'
    }
}

// Answers an act, and names it by a letter.
fn answered(setting: &mut Setting, memory: &mut [u8], op: &Op) -> (char, Reply) {
    match op {
        Op::Read { at, len } => (read_letter(*at), read(memory, *at, *len)),
        Op::Write { at, piece } => {
            put(memory, *at, piece.as_slice());
            (write_letter(*at), Reply::Done)
        }
        Op::Port { port: _, act } => match act {
            PortOp::Look => ('L', looked(setting)),
            PortOp::Break => ('K', Reply::Word(1)),
            PortOp::Interrupt { .. } => ('P', Reply::Done),
        },
        Op::Board(BoardOp::RaiseLine) => ('B', Reply::Done),
        Op::Board(BoardOp::Time) => {
            let now = setting.now;
            setting.now = now.wrapping_add(setting.step);
            ('T', Reply::Word(now))
        }
        Op::Idle => ('I', Reply::Done),
        _ => ('?', Reply::AccessFault),
    }
}

// What comes before the act of this number.
fn come(device: &mut QueueRounds<FillerKind>, setting: &mut Setting, act: u64) {
    if act == setting.unlimited {
        device.change(FillerChange::Limits(Some(None), None));
    }
    if act == setting.limited {
        device.change(FillerChange::Limits(Some(bucket(setting)), None));
    }
    if act == setting.reset {
        setting.is_reset = true;
    }
}

/// Puts the letters of a filler's acts at the end.
pub fn add(memory: &mut [u8], case: &str, text: &mut String) -> Result<(), AllocError> {
    let Some(mut setting) = setting_from(memory, case) else {
        return text.push_str("none");
    };
    let kind = FillerKind::new(RateGate::new(bucket(&setting), None));
    let mut device = QueueRounds::new(0, PAGES, kind);
    for act in 0..setting.acts {
        come(&mut device, &mut setting, act);
        let op = device.want();
        let (letter, reply) = answered(&mut setting, memory, &op);
        text.push(letter)?;
        device.give(reply);
    }
    Ok(())
}
