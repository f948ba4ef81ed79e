// What a timer wants behind each reply.
use crate::machines::reading::reply_from;
use crate::machines::telling::add_op;
use std::alloc::{AllocError, Global};
use timer_trace::Timer;
use vm_types::Actor;

/// `new` is another timer, and every other command a reply.
pub fn add(
    alloc: Global,
    timer: &mut Timer,
    command: &str,
    text: &mut String,
) -> Result<(), AllocError> {
    match reply_from(command) {
        Some(reply) => timer.give(reply),
        None => *timer = Timer::new(),
    }
    add_op(alloc, text, &timer.want())
}
