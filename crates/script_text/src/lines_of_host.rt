// The lines of the host's side: `file` and `lineage`.
ghost use Rattle.std.specs.Prelude.{◌≡◌, codes, option_map, IfOk};
ghost use Rattle.script_text.specs.declared.item.Item.TheVariants as item;
ghost use Rattle.script_text.specs.Items.{file_of, host_line};
ghost use Rattle.script_words.specs.Numbers.{word_of};
ghost use Rattle.script_words.specs.Words.{after};

use crate::item::Item;
use script_words::{behind, bytes_from, cut, name_from, word_from};
use std::alloc::{AllocError, Global};

pub fn host_line_from(alloc: Global, line: &[u8]) -> Result<Option<Item>, AllocError>
    ensures { IfOk result (λ item. item ≡ host_line line.now) }
{
    if let Some(item) = file_from(alloc, line)? {
        return Ok(Some(item));
    }
    Ok(lineage_from(alloc, line)?)
}

// `file PATH HEX`
fn file_from(alloc: Global, line: &[u8]) -> Result<Option<Item>, AllocError>
    ensures { IfOk result (λ item. item ≡ after (codes "file ") file_of line.now) }
{
    match behind(b"file ", line) {
        Some(rest) => Ok(named_file_from(alloc, rest)?),
        None => Ok(None),
    }
}

fn named_file_from(alloc: Global, rest: &[u8]) -> Result<Option<Item>, AllocError>
    ensures { IfOk result (λ item. item ≡ file_of rest.now) }
{
    let Some((word, digits)) = cut(rest) else {
        return Ok(None);
    };
    let Some(name) = name_from(alloc, word)? else {
        return Ok(None);
    };
    match bytes_from(alloc, digits)? {
        Some(content) => Ok(Some(Item::File { name, content })),
        None => Ok(None),
    }
}

// `lineage W`
fn lineage_from(alloc: Global, line: &[u8]) -> Result<Option<Item>, AllocError>
    ensures { IfOk result (λ it. it ≡ option_map item.Lineage (after (codes "lineage ") word_of line.now)) }
{
    let Some(rest) = behind(b"lineage ", line) else {
        return Ok(None);
    };
    match word_from(alloc, rest)? {
        Some(lineage) => Ok(Some(Item::Lineage { lineage })),
        None => Ok(None),
    }
}
