// Ops and replies as texts: bytes in hexadecimal digits, and all else as derived printing has it.
use crate::words::{push_bytes, push_shown};
use std::alloc::{AllocError, Global};
use vm_types::{Op, Reply};

pub fn add_op(alloc: Global, text: &mut String, op: &Op) -> Result<(), AllocError> {
    match op {
        Op::Write { at, piece } => {
            write!(text, "Write {{ at: {at}, bytes: ")?;
            push_bytes(alloc, text, piece.as_slice())?;
            text.push_str(" }")
        }
        _ => push_shown(text, op),
    }
}

pub fn add_reply(alloc: Global, text: &mut String, reply: &Reply) -> Result<(), AllocError> {
    match reply {
        Reply::Bytes(piece) => push_bytes(alloc, text, piece.as_slice()),
        _ => push_shown(text, reply),
    }
}
