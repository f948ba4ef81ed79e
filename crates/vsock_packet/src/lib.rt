//! The header of a vsock packet, and what its numbers say (VIRTIO 1.2, 5.10.6).
//!
//! A packet is a header of 44 bytes and the bytes that it carries. `Header::read` and `Header::write` are each other's inverse:
//! every 44 bytes are one header, and no two headers have the same bytes. So a number that names no operation stays what it
//! is, and `Header::operation` says that it names none.
#![tactic(auto)]

mod fields;
mod header;
mod law;
mod operation;

pub use header::Header;
pub use law::both_ways;
pub use operation::Operation;
