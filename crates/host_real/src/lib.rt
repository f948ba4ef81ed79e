//! The objects of `vm_host` and `serve_host` over the real thing: the system's clock, a Unix socket and its connections,
//! a file for a trace, random words, a file for each device's disk, and Unix sockets for links and for the vsock device.
//!
//! This is the trusted edge. None of these tells its content: the contracts say that each call that failed is counted.
//! That the right bytes come in and go out is shown by `object_cases`, over real files and sockets.
#![tactic(auto)]

mod attached_link;
mod bell;
mod dialling;
mod disk_files;
mod disk_locks;
mod file_lock;
mod kept_memory;
mod limited_file;
mod link_peer;
mod link_sockets;
mod looking;
mod patience;
mod random_words;
mod socket_client;
mod socket_conn;
mod socket_file;
mod socket_listener;
mod status;
mod system_clock;
mod trace_file;
mod trace_lines;
mod unsent;
mod vsock_end;
mod vsock_peer;
mod vsock_peers;
mod vsock_sockets;
mod watched;

pub use bell::Bell;
pub use disk_files::DiskFiles;
pub use kept_memory::keep_freed_memory;
pub use link_sockets::LinkSockets;
pub use random_words::RandomWords;
pub use socket_conn::SocketConn;
pub use socket_listener::{SocketListener, as_accepted};
pub use system_clock::SystemClock;
pub use trace_file::TraceFile;
pub use trace_lines::TraceLines;
pub use vsock_sockets::VsockSockets;
