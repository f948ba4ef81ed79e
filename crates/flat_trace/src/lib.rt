//! What the items of a trace do to the flat machine, and what is seen of them outside.
//!
//! A trace has what happened while a machine ran, as items of a script: each event of a slice, each drain of the console,
//! each new connection and the bytes that came on it. `specs/Showing.antt` has its run: the events by the flat step, so also
//! those behind the one that turned the guest off in their slice, and all else as in a script; and what each item shows,
//! the console's bytes as they are. `specs/Events.antt` has the acts of events; `law` ties both to the lines of a script.
#![tactic(auto)]

mod law;

pub use law::{every_trace_ready, line_of_event, line_of_reply, reply_again, trace_replays};
