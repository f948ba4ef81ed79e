//! The timer: its trace, and the one op that continues it.
//!
//! `specs/Traces.antt` says what a trace of the timer is: rounds, each of which asks the clock and then advances guest
//! time. `law` has what holds of every trace, and `Timer` is the actor that keeps where its steps lead.
#![tactic(auto)]

mod law;
mod timer;

pub use law::{one_op, timer_follows};
pub use timer::Timer;
