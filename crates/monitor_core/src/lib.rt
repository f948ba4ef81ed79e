//! The monitor: the machine that answers the items of a script.
//!
//! `Monitor` takes an item at a time, over any files: each flat machine that it was takes the item as the definition
//! says, each request on its connection answered by the machine, 500 or 503; or the item is not done to its end, and
//! the machine is where the first of its requests left it. It is a connection's front (`http_front`) and a machine
//! (`monitor_machine`).
#![tactic(auto)]

mod item_error;
mod monitor;

pub use item_error::ItemError;
pub use monitor::Monitor;
