//! Frames of a link as bytes of a stream, and in pieces.
//!
//! In a stream each frame stands behind its length, in four bytes with the highest first: the stream format of QEMU's
//! `-netdev stream` and of `passt`. `FrameReader` takes such a stream in any parts and gives its frames; a frame that a link
//! doesn't have, by its length, is dropped without being kept. `put_frame` writes one. `piece_of` is a piece of a frame, as a
//! device asks for it.
#![tactic(auto)]

mod coming;
mod parts;
mod pieces;
mod reader;
mod writing;

pub use coming::{Coming, Fed};
pub use pieces::piece_of;
pub use reader::FrameReader;
pub use writing::{is_frame_length, put_frame};
