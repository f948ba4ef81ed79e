//! The metadata service: what is answered to a guest's request.
//!
//! `Service::answer` is a function of the service's version and tokens, the store, the request, a moment of guest time
//! and a word for a token. `specs/Service.antt` says which; `specs/Paths.antt` where a path leads in the store,
//! `specs/Shown.antt` what is shown of a value, and `specs/Tokens.antt` which tokens are live.
#![tactic(auto)]

mod reply;
mod token;

// A request's headers.
mod headers;

// What a path leads to, and its text.
mod paths;
mod shown;

// The answers to a look and to a token's PUT.
mod giving;
mod looking;

// The answer to a request.
mod answering;

// The service.
mod service;

pub use reply::Reply;
pub use service::Service;
pub use token::Token;
