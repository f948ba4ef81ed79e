//! What the bytes of a connection say: the requests in them, and the bytes of replies and of requests.
//!
//! `specs/Stream.antt` says what a stream of bytes gives next, by the first of five rules that fits, and
//! `specs/Cuts.antt` what a whole stream gives: `any_cutting` proves that it doesn't depend on how the stream was
//! cut. `specs/Answers.antt` says that every stream has an answer, and only one, which `one_answer` proves.
//! `specs/Asked.antt` says which request lies in some bytes. `specs/Reply.antt` and `specs/Sent.antt` have the bytes of a reply
//! and of a request.
#![tactic(auto)]

mod answers;
mod cuts;
mod headers;
mod request;

pub use answers::one_answer;
pub use cuts::any_cutting;
pub use headers::HeaderList;
pub use request::{Asked, Given, Next, Request};
