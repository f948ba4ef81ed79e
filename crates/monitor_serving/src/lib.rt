//! Connections, one after another, on a machine that runs in slices meanwhile.
//!
//! A turn makes slices until bytes come on the connection, which a reader beside them waits for and closes the gate; then the
//! bytes go to the trace, and what is due is answered. Where nothing runs there is no thread beside the reader: a turn, in which the
//! clock rests, and a read behind it (`quiet`). `serve_connection` makes turns until the connection ends, and `serve`
//! takes connections from a listener, with slices between them.
#![tactic(auto)]

mod attaching;
mod beside;
mod connection;
mod gating;
mod items;
mod listening;
mod quiet;
mod served;
mod serving;
mod turning;

pub use connection::serve_connection;
pub use served::Served;
pub use serving::serve;
