//! The host objects in memory, each with a list of calls that are to fail: a source, a sink and files, and what a running
//! guest and serving ask.
//!
//! They tell their content, so all that a contract says of host objects holds of them; tests and replays over
//! memory stand on them. What they take is kept, to be looked at: `MemoryFiles` logs each call that was done, the newest
//! first, which says what its files held at each moment. Words, and a clock, that never fail stand on `Numbers`, a list of
//! answers. Read `failing` first, then the kinds of files, `memory_trace` and `memory_conn`, and `memory_listener` with
//! `past`, by which the end of a connection needs no memory.
#![tactic(auto)]

mod failing;
mod file_event;
mod frame;
mod item_copy;
mod memory_clock;
mod memory_conn;
mod memory_disk;
mod memory_files;
mod memory_guest_words;
mod memory_link;
mod memory_listener;
mod memory_sink;
mod memory_source;
mod memory_trace;
mod memory_vsock;
mod memory_wire;
mod memory_words;
mod names;
mod numbers;
mod passed;
mod past;
mod steady_source;
mod steady_words;

pub use failing::Failing;
pub use file_event::FileEvent;
pub use frame::Frame;
pub use memory_clock::MemoryClock;
pub use memory_conn::{MemoryCaller, MemoryConn};
pub use memory_disk::MemoryDisk;
pub use memory_files::{MemoryFiles, read_bytes};
pub use memory_guest_words::MemoryGuestWords;
pub use memory_link::MemoryLink;
pub use memory_listener::MemoryListener;
pub use memory_sink::MemorySink;
pub use memory_source::MemorySource;
pub use memory_trace::MemoryTrace;
pub use memory_vsock::MemoryVsock;
pub use memory_wire::MemoryWire;
pub use memory_words::MemoryWords;
pub use numbers::Numbers;
pub use passed::Passed;
pub use past::Past;
pub use steady_source::SteadySource;
pub use steady_words::SteadyWords;
