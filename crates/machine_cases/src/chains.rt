// What a block device does with a chain.
mod acting;
pub mod memory;
pub mod setting;
mod walking;

use crate::chains::acting::add_acts;
use crate::chains::memory::part;
use crate::chains::setting::{Setting, setting_from};
use crate::chains::walking::walk_word;
use crate::words::push_bytes;
use std::alloc::{AllocError, Global};

/// Puts at the end what a walk of the first chain comes to, the device's acts, a letter each, and the bytes of memory
/// that the case names.
pub fn add(
    alloc: Global,
    memory: &mut [u8],
    case: &str,
    text: &mut String,
) -> Result<(), AllocError> {
    match setting_from(memory, case) {
        Some(setting) => {
            text.push_str(walk_word(memory, &setting))?;
            text.push(' ')?;
            add_acts(text, memory, &setting)?;
            add_bytes(alloc, text, memory, &setting)
        }
        None => text.push_str("none"),
    }
}

fn add_bytes(
    alloc: Global,
    text: &mut String,
    memory: &[u8],
    setting: &Setting,
) -> Result<(), AllocError> {
    match part(memory, setting.shown, setting.count) {
        Some(bytes) => {
            text.push(' ')?;
            push_bytes(alloc, text, bytes)
        }
        None => Ok(()),
    }
}
