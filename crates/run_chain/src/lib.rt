//! What the script of a run asks for, line by line, and that its creates are a chain.
//!
//! `specs/Asked.antt` says what a line asks for. `law` says it of each line of the script. The lemmas `Opening` and `Rounds` follow
//! the machine from line to line, up to the creates that it answers and the files that they leave. `load_run` puts them into the law
//! of a chain that is loaded.
#![tactic(auto)]

mod law;

pub use law::{requests_arrive, rounds_arrive};
