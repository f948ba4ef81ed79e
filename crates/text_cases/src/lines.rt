// A line of a script.
use crate::escapes::{text_of, unescaped};
use script_text::{HostReply, Item, read_line, write_item};
use std::alloc::{AllocError, Global};

/// Puts at the end the line that the item of a line is written as, and of some items what they hold; `none` for what is
/// no line.
pub fn add(alloc: Global, case: &str, text: &mut String) -> Result<(), AllocError> {
    let line = unescaped(alloc, case)?;
    add_read(alloc, line.as_bytes(), text)
}

/// The same of two lines that are no text.
pub fn add_others(alloc: Global, text: &mut String) -> Result<(), AllocError> {
    for line in [b"file \xff 00".as_slice(), b"# \xff\xfe\x00"] {
        text.push_str("no text => ")?;
        add_read(alloc, line, text)?;
        text.push('\n')?;
    }
    Ok(())
}

fn add_read(alloc: Global, line: &[u8], text: &mut String) -> Result<(), AllocError> {
    match read_line(alloc, line)? {
        Some(item) => add_item(alloc, &item, text),
        None => text.push_str("none"),
    }
}

fn add_item(alloc: Global, item: &Item, text: &mut String) -> Result<(), AllocError> {
    add_written(alloc, item, text)?;
    add_held(item, text)
}

fn add_written(alloc: Global, item: &Item, text: &mut String) -> Result<(), AllocError> {
    let line = write_item(alloc, item)?;
    text.push_str(text_of(line.as_slice()).trim_end_matches('\n'))
}

// What an item holds whose line has numbers in digits of sixteen, or more than one.
fn add_held(item: &Item, text: &mut String) -> Result<(), AllocError> {
    match item {
        Item::Lineage { lineage } => write!(text, " ({lineage})"),
        Item::Register { hart, number } => write!(text, " (hart {hart}, register {number})"),
        Item::Memory { address, length } => write!(text, " ({length} bytes at {address})"),
        Item::Reply { actor, reply } => match reply {
            HostReply::Received { connection, bytes } => write!(
                text,
                " ({actor:?}, connection {connection}, {:?})",
                bytes.as_slice()
            ),
            HostReply::Word { word } => write!(text, " ({word})"),
            _ => Ok(()),
        },
        _ => Ok(()),
    }
}
