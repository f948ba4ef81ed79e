// What a case of a network device, a balloon or an entropy device sets up.
use crate::chains::memory::{AVAILABLE, DESCRIPTORS, put};
use crate::words::{Numbers, numbers_in};

/// The tables of each queue stand so far behind those of the one before it.
pub const BEHIND: u64 = 0x400;

/// How many acts are made, what comes between them, and what is laid already.
#[derive(Clone, Copy, Drop)]
pub struct Setting {
    pub acts: u64,
    pub kicks: u64,
    pub size: u64,
    pub ms: u64,
    pub step: u64,
    pub frames: u64,
    pub frame: u64,
    pub failing: u64,
    pub interval: u64,
    pub sooner: u64,
    pub change: u64,
    laid: u64,
}

const PLAIN: Setting = Setting {
    acts: 0,
    kicks: 0,
    size: 0,
    ms: 0,
    step: 0,
    frames: 0,
    frame: 0,
    failing: u64::MAX,
    interval: 0,
    sooner: 0,
    change: u64::MAX,
    laid: 0,
};

/// A case, whose words are laid in memory.
pub fn setting_from(memory: &mut [u8], case: &str) -> Option<Setting> {
    let mut setting = PLAIN;
    memory.fill(0);
    for word in case.split(' ') {
        let (name, text) = word.split_once('=')?;
        set(&mut setting, memory, name, numbers_in(text, ':')?)?;
    }
    Some(setting)
}

fn set(setting: &mut Setting, memory: &mut [u8], name: &str, values: Numbers) -> Option<()> {
    match name {
        "acts" => setting.acts = values.a,
        "kicks" => setting.kicks = values.a,
        "limit" => {
            setting.size = values.a;
            setting.ms = values.b;
        }
        "step" => setting.step = values.a,
        "frames" => {
            setting.frames = values.a;
            setting.frame = values.b;
        }
        "failing" => setting.failing = values.a,
        "interval" => {
            setting.interval = values.a;
            setting.sooner = values.b;
            setting.change = if values.c == 0 { u64::MAX } else { values.c };
        }
        "part" => {
            lay_part(memory, setting.laid, values);
            setting.laid = setting.laid.wrapping_add(1);
        }
        _ => return lay(memory, name, values),
    }
    Some(())
}

fn lay(memory: &mut [u8], name: &str, values: Numbers) -> Option<()> {
    match name {
        "chains" => {
            put(memory, AVAILABLE + 2, &[(values.a % 0x100) as u8]);
            put(memory, AVAILABLE + BEHIND + 2, &[(values.b % 0x100) as u8]);
            put(
                memory,
                AVAILABLE + 2 * BEHIND + 2,
                &[(values.c % 0x100) as u8],
            );
        }
        "bytes" => put(memory, values.a, &values.b.to_le_bytes()),
        _ => return None,
    }
    Some(())
}

// The next part of the chain of a queue: its place, its length and its flags.
fn lay_part(memory: &mut [u8], index: u64, Numbers { a, b, c, d }: Numbers) {
    let table = DESCRIPTORS + BEHIND * (a % 3);
    let place = table + 16 * (index % 4);
    put(memory, place, &b.to_le_bytes());
    put(
        memory,
        place + 8,
        &((c % 0x1_0000_0000) as u32).to_le_bytes(),
    );
    put(
        memory,
        place + 12,
        &[(d % 0x100) as u8, 0, ((index % 4 + 1) % 4) as u8],
    );
}
