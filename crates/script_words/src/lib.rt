//! The words, numbers, bytes and actors of a script's lines, read and written, and where a line ends.
//!
//! What reads gives `None` for what is none of it: `number_from` for decimal numbers, `bytes_from`, `word_from` and
//! `address_from` for hexadecimal digits, `actor_from` for who a line names. What writes puts its words at the end of
//! a line. `end_from` finds the first LF.
#![tactic(auto)]

mod actors;
mod appending;
mod hex_bytes;
mod hex_number;
mod lines;
mod number;
mod text;
mod words;

pub use actors::{actor_from, hart_from};
pub use appending::{
    actor_word, append_hex, append_number, append_word, hex_digit, numbered_words,
};
pub use hex_bytes::bytes_from;
pub use hex_number::{address_from, word_from};
pub use lines::end_from;
pub use number::{is_digit, number_from, number_within, numbered, numbered_8, numbered_32};
pub use text::{name_from, text_from};
pub use words::{behind, cut, is_line, space_at};
