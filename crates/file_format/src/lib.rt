//! Formats of files: which values have an encoding, which bytes it is, and how it is read back.
//!
//! A `Format` of `specs/Format.antt` says both, and brings the laws that what is written is read back and that only
//! encodings are read. `specs/Kinds.antt` has the kinds that files are made of. A type that files hold is `Stored`: its
//! `write` puts the format's bytes at an end, and its `read` takes a value from the front of an `Input` exactly where
//! the format has one there.
#![tactic(auto)]

mod arrays;
mod error;
mod fixed;
mod identity;
mod input;
mod items;
mod listed;
mod lists;
mod start;
mod stored;
mod version;
mod whole;

pub use error::{DecodeError, ReadError};
pub use fixed::{are_zeros, read_fixed, read_zeros, write_fixed, write_zeros};
pub use identity::{is_numbered, is_same};
pub use input::Input;
pub use items::Items;
pub use listed::{Listed, Whole};
pub use lists::{read_into, read_items, write_count, write_items};
pub use start::{is_closed, is_other};
pub use stored::Stored;
pub use version::{Version, version_of};
pub use whole::Counted;
