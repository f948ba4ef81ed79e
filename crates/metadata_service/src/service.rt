// The service.
ghost use Rattle.std.specs.Prelude.{◌≡◌, [], IfOk, OnErr};
ghost use Rattle.metadata_service.specs.Service.{answer};

use crate::answering;
use crate::reply::Reply;
use crate::token::Token;
use http_stream::Request;
use metadata_store::{MetadataVersion, Store};
use std::alloc::{AllocError, Global};
use std::marker::Model;

/// A metadata service: its version, and the tokens that it gave.
#[derive(Drop)]
pub struct Service {
    version: MetadataVersion,
    tokens: Vec<Token>,
    alloc: Global,
}

impl Model for Service {
    ghost use Rattle.metadata_service.specs.Service.{Served};

    ghost Value = { Served };

    ghost view = { λ s. record { version = s.version; tokens = s.tokens.items } };
}

impl Service {
    /// A service that gave no token.
    pub fn new(alloc: Global, version: MetadataVersion) -> Service
        ensures { result ≡ record { version = version; tokens = [] } }
    {
        Service {
            version,
            tokens: Vec::new(alloc),
            alloc,
        }
    }

    /// What is answered to a request at this moment of guest time, in nanoseconds; where it is given a token, this is
    /// the token's word. An `Err` changes nothing.
    ///
    /// The status is 200 with a text, or the first of these that fits: 405 for what is neither a GET nor, in version 2,
    /// a PUT that asks for a token; 400 for such a PUT that names no time to live of 1 to 21,600 seconds; 401 for a GET
    /// without a live token, in version 2; 404 for a path that leads to no value; 501 for a value that has no text but
    /// JSON where that isn't accepted.
    pub fn answer(
        &mut self,
        store: &Store,
        request: &Request,
        now: u64,
        word: u64,
    ) -> Result<Reply, AllocError>
        ensures ok { IfOk result (λ reply. answer self.old store.now request.now now word
            ≡ record { reply = reply; after = self.new }) }
        ensures err { OnErr result (self.new ≡ self.old) }
    {
        let reply = answering::answer(
            self.alloc,
            self.version,
            &mut self.tokens,
            store,
            request,
            now,
            word,
        )?;
        Ok(reply)
    }
}
