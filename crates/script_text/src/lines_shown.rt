// The lines of what is shown: `console`, `reg` and `mem`.
ghost use Rattle.std.specs.Prelude.{◌≡◌, codes};
ghost use Rattle.script_text.specs.Items.{memory_of, register_of, shown_line};
ghost use Rattle.script_words.specs.Words.{after};

use crate::item::Item;
use script_words::{address_from, behind, cut, hart_from, is_line, number_within};

pub fn shown_line_from(line: &[u8]) -> Option<Item>
    ensures { result ≡ shown_line line.now }
{
    if is_line(b"console", line) {
        return Some(Item::Console);
    }
    if let Some(item) = register_line_from(line) {
        return Some(item);
    }
    memory_from(behind(b"mem ", line)?)
}

fn register_line_from(line: &[u8]) -> Option<Item>
    ensures { result ≡ after (codes "reg ") register_of line.now }
{
    register_from(behind(b"reg ", line)?)
}

// `reg hK N`
fn register_from(rest: &[u8]) -> Option<Item>
    ensures { result ≡ register_of rest.now }
{
    let (word, digits) = cut(rest)?;
    let hart = hart_from(word)?;
    let number = number_within(digits, 0, 32)?;
    Some(Item::Register {
        hart,
        number: number as u8,
    })
}

// `mem ADDR LEN`
fn memory_from(rest: &[u8]) -> Option<Item>
    ensures { result ≡ memory_of rest.now }
{
    let (word, digits) = cut(rest)?;
    let address = address_from(word)?;
    let length = number_within(digits, 1, 64)?;
    Some(Item::Memory {
        address,
        length: length as usize,
    })
}
