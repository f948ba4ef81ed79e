//! The machine that a monitor holds, without its connection: the lines of a script that bring no request, and what
//! comes of one.
//!
//! A `LiveMachine` beside its files is the flat machines of `IsMachine`. Each of its calls makes of it what the flat
//! machine makes of each of those; `answer_request` answers one, by the machine, 500 or 503. What a call tells the devices
//! of a guest, and what its balloon tells, are said in `specs/Telling.antt`.
#![tactic(auto)]

mod answering;
mod machine;
mod outcome;
mod waiting;

pub use machine::{LiveMachine, drain_all};
pub use outcome::Outcome;
