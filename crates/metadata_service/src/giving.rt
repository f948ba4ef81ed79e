// The answer to a PUT that asks for a token.
ghost use Rattle.std.specs.Prelude.{◌≡◌, ◌∷◌, IfOk, OnOk, OnErr};
ghost use Rattle.metadata_service.specs.Service.{asked_life, found_text, newest};
ghost use Rattle.script_words.specs.Numbers.{word_text};

use crate::headers::header;
use crate::reply::{Reply, bare, found_text};
use crate::token::{Token, life_of};
use http_stream::Request;
use script_words::append_word;
use std::alloc::{AllocError, Global};
use vm_types::ByteList;

const MOST_TOKENS: usize = 64;

/// How many seconds the token that is asked for is to live.
pub fn asked_life(request: &Request) -> Option<u64>
    ensures { result ≡ asked_life request.now }
{
    life_of(header(b"x-metadata-token-ttl-seconds", request)?)
}

/// A new token, before the others, of which the oldest goes where there are too many. An `Err` changes nothing.
pub fn give(alloc: Global, tokens: &mut Vec<Token>, token: Token) -> Result<Reply, AllocError>
    ensures ok { IfOk result (λ reply. reply ≡ found_text (word_text token.word)) }
    ensures kept { OnOk result (tokens.new.items ≡ newest (token ∷ tokens.old.items)) }
    ensures err { OnErr result (tokens.new.items ≡ tokens.old.items) }
{
    let mut text = ByteList::new(alloc);
    append_word(&mut text, token.word)?;
    tokens.insert(0, token)?;
    tokens.truncate(MOST_TOKENS);
    Ok(found_text(text))
}
