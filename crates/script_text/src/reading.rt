// A line, read into the item that it asks for.
ghost use Rattle.std.specs.Prelude.{◌≡◌, IfOk};
ghost use Rattle.script_text.specs.Items.{actor_line, connection_line, host_line, item_of, shape_of, shown_line, worded};

use crate::item::Item;
use crate::lines_of_actors::actor_line_from;
use crate::lines_of_connection::connection_line_from;
use crate::lines_of_host::host_line_from;
use crate::lines_shown::shown_line_from;
use std::alloc::{AllocError, Global};

/// The longest line, in bytes without its LF.
pub const LONGEST: usize = 1_048_576;

/// The item that a line asks for, without its LF; `None` for what is no line of a script.
pub fn read_line(alloc: Global, line: &[u8]) -> Result<Option<Item>, AllocError>
    ensures { IfOk result (λ item. item ≡ item_of line.now) }
{
    if line.len() <= LONGEST {
        Ok(shape_from(alloc, line)?)
    } else {
        Ok(None)
    }
}

// An empty line and a comment ask for nothing.
fn shape_from(alloc: Global, line: &[u8]) -> Result<Option<Item>, AllocError>
    ensures { IfOk result (λ item. item ≡ shape_of line.now) }
{
    match line {
        [] => Ok(Some(Item::Nothing)),
        [b'#', ..] => Ok(Some(Item::Nothing)),
        _ => Ok(worded_from(alloc, line)?),
    }
}

fn worded_from(alloc: Global, line: &[u8]) -> Result<Option<Item>, AllocError>
    ensures { IfOk result (λ item. item ≡ worded line.now) }
{
    if let Some(item) = host_line_from(alloc, line)? {
        return Ok(Some(item));
    }
    if let Some(item) = connection_line_from(alloc, line)? {
        return Ok(Some(item));
    }
    if let Some(item) = actor_line_from(alloc, line)? {
        return Ok(Some(item));
    }
    Ok(shown_line_from(line))
}
