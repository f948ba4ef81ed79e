//! The host objects that serving needs: a trace of items, connections with a listener for them, and words.
//!
//! They have the form of `vm_outside`: of each one record is known, its health and its content. A call answers
//! `Failed` exactly where its count of faults rose, and what is said of the content holds where the object tells it.
//! Read `trace` and `conn` first, then `listener`, and last `words`, `sending` and `events`, which has the item of an event.
#![tactic(auto)]

mod conn;
mod events;
mod listener;
mod sending;
mod trace;
mod words;

pub use conn::{Conn, Got};
pub use events::{event_item, host_reply};
pub use listener::{Accepted, Listener};
pub use sending::put_all;
pub use trace::Trace;
pub use words::Words;
