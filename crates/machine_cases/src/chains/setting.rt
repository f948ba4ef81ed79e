// What a case sets up.
use crate::chains::memory::{AVAILABLE, DESCRIPTORS, HEADER, PAGES, PLACE, STATUS, USED, put};
use crate::words::{Numbers, numbers_in};
use rate_gate::{Bucket, RateGate};
use vm_types::{Accepted, QueueShown};
use vq_split::Queue;

/// None of the features of a queue.
pub const NOTHING: Accepted = Accepted {
    indirect: false,
    event_index: false,
};

/// The device, its queue, what the driver accepted of its features, how many acts are made and which bytes are shown after them. The disk's acts from the one of
/// number `failing` on fail. The bucket of bytes is full at first; guest time begins with 0, and is `step` nanoseconds later at each
/// question.
#[derive(Clone, Copy, Drop)]
pub struct Setting {
    pub sectors: u64,
    pub is_read_only: bool,
    pub table: u64,
    pub size: u16,
    pub accepted: Accepted,
    pub failing: u64,
    pub acts: usize,
    pub shown: u64,
    pub count: usize,
    pub filled: u16,
    pub limit: u64,
    pub ms: u64,
    pub step: u64,
}

impl Setting {
    /// The gate, whose bucket has numbers of 16 bits.
    pub fn limits(&self) -> RateGate {
        RateGate::new(
            Bucket::new(self.limit % 0x1_0000, 0, self.ms % 0x1_0000),
            None,
        )
    }

    pub fn queue(&self) -> Queue {
        Queue {
            descriptors: self.table,
            available: AVAILABLE,
            used: USED,
            size: self.size,
            pages: PAGES,
            accepted: self.accepted,
        }
    }

    /// Where the driver says at which used index it wants an interrupt.
    pub fn used_event(&self) -> u64 {
        AVAILABLE + (4 + 2 * self.size as u64)
    }

    /// And the device at which available index it wants a kick.
    pub fn avail_event(&self) -> u64 {
        USED + (4 + 8 * self.size as u64)
    }

    pub fn queue_shown(&self, is_kicked: bool) -> QueueShown {
        QueueShown {
            descriptors: self.table,
            available: AVAILABLE,
            used: USED,
            size: self.size,
            is_ready: true,
            is_kicked,
        }
    }
}

const PLAIN: Setting = Setting {
    sectors: 8,
    is_read_only: false,
    table: DESCRIPTORS,
    size: 8,
    accepted: NOTHING,
    failing: 1000,
    acts: 12,
    shown: 0,
    count: 0,
    filled: 0,
    limit: 0,
    ms: 0,
    step: 0,
};

/// A case, whose words are set up in memory.
pub fn setting_from(memory: &mut [u8], case: &str) -> Option<Setting> {
    let mut setting = PLAIN;
    memory.fill(0);
    put(memory, AVAILABLE + 2, &[1, 0]);
    put(memory, PLACE, &[0xee]);
    put(memory, STATUS, &[9]);
    for word in case.split(' ') {
        let (name, text) = word.split_once('=')?;
        set(&mut setting, memory, name, numbers_in(text, ':')?)?;
    }
    Some(setting)
}

fn low16(value: u64) -> u16 {
    (value % 0x1_0000) as u16
}

fn low32(value: u64) -> u32 {
    (value % 0x1_0000_0000) as u32
}

fn set(setting: &mut Setting, memory: &mut [u8], name: &str, values: Numbers) -> Option<()> {
    match name {
        "size" => setting.size = low16(values.a),
        "table" => setting.table = values.a,
        "accepted" => {
            setting.accepted = Accepted {
                indirect: values.a % 2 == 1,
                event_index: values.a / 2 % 2 == 1,
            }
        }
        "event" => put(memory, setting.used_event(), &low16(values.a).to_le_bytes()),
        "sectors" => setting.sectors = values.a,
        "limit" => {
            setting.limit = values.a;
            setting.ms = values.b;
        }
        "step" => setting.step = values.a,
        "readonly" => setting.is_read_only = values.a == 1,
        "failing" => setting.failing = values.a,
        "acts" => setting.acts = values.a as usize,
        "show" => {
            setting.shown = values.a;
            setting.count = values.b as usize;
        }
        "d" => {
            descriptor(memory, setting.filled, values);
            setting.filled = setting.filled.wrapping_add(1);
        }
        _ => return lay(memory, name, values),
    }
    Some(())
}

fn lay(memory: &mut [u8], name: &str, values: Numbers) -> Option<()> {
    match name {
        "ring" => {
            put(memory, AVAILABLE + 2, &low16(values.a).to_le_bytes());
            put(memory, AVAILABLE + 4, &low16(values.b).to_le_bytes());
        }
        "ask" => {
            put(memory, HEADER, &low32(values.a).to_le_bytes());
            put(memory, HEADER + 8, &values.b.to_le_bytes());
        }
        "fill" => fill(memory, low16(values.a)),
        _ => return None,
    }
    Some(())
}

fn descriptor(memory: &mut [u8], index: u16, Numbers { a, b, c, d }: Numbers) {
    let place = DESCRIPTORS + 16 * index as u64;
    put(memory, place, &a.to_le_bytes());
    put(memory, place + 8, &low32(b).to_le_bytes());
    put(memory, place + 12, &low16(c).to_le_bytes());
    put(memory, place + 14, &low16(d).to_le_bytes());
}

// A chain of so many descriptors: a header, bytes that are written, and a status.
fn fill(memory: &mut [u8], count: u16) {
    descriptor(memory, 0, four(HEADER, 16, 1, 1));
    for index in 1..count {
        let next = index.wrapping_add(1);
        descriptor(memory, index, four(PLACE, 1, 3, next as u64));
    }
    descriptor(memory, count.wrapping_sub(1), four(STATUS, 1, 2, 0));
}

fn four(a: u64, b: u64, c: u64, d: u64) -> Numbers {
    Numbers { a, b, c, d }
}
