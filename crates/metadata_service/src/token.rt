// Tokens, and how long they live.
ghost use Rattle.std.specs.Prelude.{◌≡◌, Some, IfOk};
ghost use Rattle.metadata_service.specs.Tokens.{accepts, is_known, is_live, life_of};

use script_words::word_from;
use std::alloc::{AllocError, Global};

/// Nanoseconds.
const SECOND: u64 = 1_000_000_000;

/// Seconds.
const LONGEST_LIFE: u64 = 21_600;

/// A token that was given: its word, the moment of guest time in nanoseconds, and how many seconds it lives.
#[derive(Clone, Copy, Drop)]
pub struct Token {
    pub word: u64,
    pub made: u64,
    pub seconds: u64,
}

/// Whether a text is the sixteen digits of a token that is live at this moment.
pub fn accepts(alloc: Global, now: u64, tokens: &[Token], text: &[u8]) -> Result<bool, AllocError>
    ensures { IfOk result (λ accepted. accepted ≡ accepts now tokens.now text.now) }
{
    match word_from(alloc, text)? {
        Some(word) => Ok(is_known(now, tokens, word)),
        None => Ok(false),
    }
}

fn is_known(now: u64, tokens: &[Token], word: u64) -> bool
    ensures { result ≡ is_known now tokens.now (Some word) }
{
    tokens
        .iter()
        .any(|token| token.word == word && is_live(now, token))
}

fn is_live(now: u64, token: &Token) -> bool
    ensures { result ≡ is_live now token.now }
{
    (now.saturating_sub(token.made) as u128) < token.seconds as u128 * SECOND as u128
}

/// How many seconds a token is to live, by the text that asks for it: decimal digits of 1 to 21,600.
pub fn life_of(text: &[u8]) -> Option<u64>
    ensures { result ≡ life_of text.now }
{
    if text.is_empty() {
        return None;
    }
    // A number of any length: past the longest life its value isn't kept.
    let mut seconds: u64 = 0;
    for b in text {
        if !b.is_ascii_digit() {
            return None;
        }
        seconds = (seconds * 10 + (*b - b'0') as u64).min(LONGEST_LIFE + 1);
    }
    if 1 <= seconds && seconds <= LONGEST_LIFE {
        Some(seconds)
    } else {
        None
    }
}
