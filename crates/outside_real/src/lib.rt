//! The objects of `vm_outside` over the real thing: input, output, and files by name.
//!
//! This is the trusted edge. No contract can say which bytes the system gave or took, so none of these
//! tells its content: the contracts say that each call that failed is counted once, that no other call
//! is, and that a sink takes at least one byte of a piece that isn't empty. That the right bytes come
//! in and go out is shown by `object_cases`, over real files.
//!
//! Read `reading`, `writing` and `folder`, one for each trait, and `output` with `outlet`, a sink that keeps a text in place of
//! waiting for who reads it. Then `named_file` and `open_files` with the calls on one file, `entered` with the names that are on
//! disk, `size_limit` with the limit that a write must not pass, `polling` with what is asked of descriptors, and `tries` with the
//! calls that a signal may cut off. `counted`, `polling`, `size_limit` and `tries` serve the adapters of other crates too.
#![tactic(auto)]

pub mod counted;
mod entered;
mod folder;
mod named_file;
mod open_files;
mod outlet;
mod output;
pub mod polling;
mod reading;
pub mod size_limit;
mod standard;
pub mod tries;
mod writing;

pub use folder::Folder;
pub use named_file::{OWNER_ALONE, create_private, folder_of};
pub use output::Output;
pub use reading::Reading;
pub use standard::fill_standard;
pub use writing::Writing;
