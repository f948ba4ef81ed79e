//! The metadata store: a JSON tree that a PUT replaces and a PATCH merges into.
//!
//! `specs/MergePatch.antt` is JSON Merge Patch on trees (RFC 7396, 2), and `specs/Store.antt` says what a PUT and a
//! PATCH make of a store, or which refusal comes first. A store is `null` until a PUT. Contracts see a `Tree` and a
//! `Store` as the value that their JSON stands for, which the definitions above this crate hold too.
#![tactic(auto)]

mod error;

// A JSON value as plain data.
mod tree;

// What is asked of a body.
mod whole;

// Merge patch.
mod merge;

// What is to be stored, or why not.
mod results;

// The store.
mod store;

// Which tokens a service asks for.
mod version;

pub use error::StoreError;
pub use store::Store;
pub use tree::Tree;
pub use version::MetadataVersion;
