// The answer to a request.
ghost use Rattle.std.specs.Prelude.{◌≡◌, IfOk, OnErr};
ghost use Rattle.metadata_service.specs.Service.{answer, asks_token};

use crate::giving::{asked_life, give};
use crate::looking::look;
use crate::reply::{Reply, bare};
use crate::token::Token;
use http_stream::Request;
use metadata_store::{MetadataVersion, Store};
use std::alloc::{AllocError, Global};

/// What a service of that version, which gave these tokens, answers.
#[tactic(auto, unfolding(crate::specs::Service::answer))]
pub fn answer(
    alloc: Global,
    version: MetadataVersion,
    tokens: &mut Vec<Token>,
    store: &Store,
    request: &Request,
    now: u64,
    word: u64,
) -> Result<Reply, AllocError>
    ensures ok { IfOk result (λ reply.
        answer (record { version = version; tokens = tokens.old.items }) store.now request.now now word
        ≡ record { reply = reply; after = record { version = version; tokens = tokens.new.items } }) }
    ensures err { OnErr result (tokens.new.items ≡ tokens.old.items) }
{
    if request.method.as_str() == "GET" {
        let reply = look(alloc, version, tokens, store, request, now)?;
        return Ok(reply);
    }
    if !asks_token(version, request) {
        return Ok(bare(alloc, 405));
    }
    let Some(seconds) = asked_life(request) else {
        return Ok(bare(alloc, 400));
    };
    let token = Token {
        word,
        made: now,
        seconds,
    };
    let reply = give(alloc, tokens, token)?;
    Ok(reply)
}

fn asks_token(version: MetadataVersion, request: &Request) -> bool
    ensures { result ≡ asks_token version request.now }
{
    match version {
        MetadataVersion::V1 => false,
        MetadataVersion::V2 => {
            request.method.as_str() == "PUT" && request.path.as_str() == "/latest/api/token"
        }
    }
}
