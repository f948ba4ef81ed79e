// Where an op acts, in a machine of 4 MiB with two ports.
use crate::machines::reading::op_from;
use crate::words::push_shown;
use flat_guest::{Layout, place};
use std::alloc::AllocError;

const LAYOUT: Layout = Layout {
    memory_size: 0x40_0000,
    ports: 2,
};

pub fn add(command: &str, text: &mut String) -> Result<(), AllocError> {
    match op_from(command) {
        Some(op) => push_shown(text, &place(LAYOUT, &op)),
        None => text.push_str("none"),
    }
}
