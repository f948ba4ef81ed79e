// A script that comes in pieces.
use crate::escapes::bytes_of;
use script_text::{Item, LineReader, Next};
use std::alloc::{AllocError, Global};

/// Puts at the end a letter for each line, `!` for what is none, and `.` where none is whole.
pub fn add(alloc: Global, case: &str, text: &mut String) -> Result<(), AllocError> {
    let mut reader = LineReader::new(alloc);
    for piece in case.split('|') {
        add_piece(alloc, &mut reader, piece, text)?;
    }
    Ok(())
}

fn add_piece(
    alloc: Global,
    reader: &mut LineReader,
    piece: &str,
    text: &mut String,
) -> Result<(), AllocError> {
    reader.feed(&bytes_of(alloc, piece)?)?;
    take(reader, text)
}

// Puts the letters of up to nine lines at the end.
fn take(reader: &mut LineReader, text: &mut String) -> Result<(), AllocError> {
    for _ in 0..9 {
        let letter = letter_of(&reader.next()?);
        text.push(letter)?;
        if letter == '.' {
            return Ok(());
        }
    }
    Ok(())
}

fn letter_of(next: &Next) -> char {
    match next {
        Next::Line(Item::Nothing) => 'n',
        Next::Line(Item::Connect) => 'c',
        Next::Line(_) => 'l',
        Next::Bad => '!',
        Next::Nothing => '.',
    }
}
