// Bytes that are a text.
ghost use Rattle.std.specs.Prelude.{◌≡◌, IfOk};
ghost use Rattle.script_words.specs.Words.{name_of, text_of};

use std::alloc::{AllocError, Global};
use vm_types::TextList;

/// The text that these bytes are, if they are UTF-8.
#[tactic(auto, using(crate::proofs::Texts::text_is))]
pub fn text_from(alloc: Global, bytes: &[u8]) -> Result<Option<TextList>, AllocError>
    ensures { IfOk result (λ text. text ≡ text_of bytes.now) }
{
    match str::from_utf8(bytes) {
        Ok(text) => Ok(Some(TextList::copy_of(alloc, text)?)),
        Err(_) => Ok(None),
    }
}

/// A file's name: one byte or more, in UTF-8.
pub fn name_from(alloc: Global, word: &[u8]) -> Result<Option<TextList>, AllocError>
    ensures { IfOk result (λ name. name ≡ name_of word.now) }
{
    if word.is_empty() {
        Ok(None)
    } else {
        Ok(text_from(alloc, word)?)
    }
}
