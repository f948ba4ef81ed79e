//! Requests from a stream of bytes, and the bytes of replies and of requests.
//!
//! A `Front` is fed the bytes of one connection as they come: `peek` is what comes next, where it lies in them, and `skip`
//! takes it; `next` is a copy, which is taken. What comes next is `Judged` (crate `http_stream`): the first of five rules that
//! fits the bytes not yet answered. `requests` takes all pieces of a stream. `write_reply` gives the bytes of an answer, and
//! `write_request` those of a request.
#![tactic(auto)]

mod body;
mod found;
mod front;
mod head;
mod pieces;
mod reply;
mod rules;
mod sending;

pub use front::Front;
pub use pieces::requests;
pub use reply::write_reply;
pub use sending::write_request;
