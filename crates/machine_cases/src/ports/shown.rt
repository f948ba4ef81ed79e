// Replies as texts.
use crate::words::{push_bytes, push_number};
use std::alloc::{AllocError, Global};
use vm_types::{PortLook, QueueShown, Reply};

/// The bytes that were read; `STATUS`, what was accepted and three queues of a look; a word; or the reply's name.
pub fn add_reply(alloc: Global, text: &mut String, reply: &Reply) -> Result<(), AllocError> {
    match reply {
        Reply::Bytes(piece) => push_bytes(alloc, text, piece.as_slice()),
        Reply::Port(look) => add_look(text, look),
        Reply::Word(word) => push_number(text, *word),
        Reply::Done => text.push_str("done"),
        _ => text.push_str("fault"),
    }
}

fn add_look(text: &mut String, look: &PortLook) -> Result<(), AllocError> {
    push_number(text, look.status as u64)?;
    push_if(text, look.was_reset, " reset")?;
    push_if(text, look.accepted.indirect, " indirect")?;
    push_if(text, look.accepted.event_index, " event")?;
    add_queue(text, &look.first)?;
    add_queue(text, &look.second)?;
    add_queue(text, &look.third)
}

// `; DESCRIPTORS AVAILABLE USED SIZE`, and whether it is ready and was kicked; nothing of a queue of zeros.
fn add_queue(text: &mut String, queue: &QueueShown) -> Result<(), AllocError> {
    text.push(';')?;
    if queue.size > 0 {
        add_places(text, queue)?;
    }
    push_if(text, queue.is_ready, " ready")?;
    push_if(text, queue.is_kicked, " kicked")
}

fn add_places(text: &mut String, queue: &QueueShown) -> Result<(), AllocError> {
    for number in [
        queue.descriptors,
        queue.available,
        queue.used,
        queue.size as u64,
    ] {
        text.push(' ')?;
        push_number(text, number)?;
    }
    Ok(())
}

fn push_if(text: &mut String, holds: bool, word: &str) -> Result<(), AllocError> {
    text.push_str(if holds { word } else { "" })
}
