// What acts on a board are answered.
use crate::machines::reading::act_from;
use crate::machines::telling::add_reply;
use line_board::Board;
use std::alloc::{AllocError, Global};
use vm_types::Place;

pub fn add(
    alloc: Global,
    board: &mut Board,
    command: &str,
    text: &mut String,
) -> Result<(), AllocError> {
    match act_from(command) {
        Some((actor, op)) => add_reply(alloc, text, &board.act(actor, &op)),
        None => other(alloc, board, command, text),
    }
}

// `drain` takes up to three bytes of the console; `shown` is what it shows; `new-N` is another board, of N harts.
fn other(
    alloc: Global,
    board: &mut Board,
    command: &str,
    text: &mut String,
) -> Result<(), AllocError> {
    match command {
        "drain" => add_drained(board, text),
        "shown" => add_shown(board, text),
        _ => text.push_str(begin(alloc, board, command)?),
    }
}

fn begin(alloc: Global, board: &mut Board, command: &str) -> Result<&'static str, AllocError> {
    let harts = match command {
        "new-1" => 1,
        "new-2" => 2,
        "new-3" => 3,
        _ => return Ok("none"),
    };
    *board = Board::new(alloc, harts)?;
    Ok("-")
}

fn add_drained(board: &mut Board, text: &mut String) -> Result<(), AllocError> {
    let mut out = [0; 3];
    let count = board.drain(&mut out);
    write!(text, "{count} {out:?}")
}

// Whether the guest is off, and the parts that no act is answered with.
fn add_shown(board: &Board, text: &mut String) -> Result<(), AllocError> {
    write!(
        text,
        "off {}, {} bytes, lines {:x}, {:?}, {:?}, {:?}",
        board.is_off(),
        board.console().len(),
        board.pending(),
        board.enables(),
        board.software(),
        board.deadlines()
    )
}
