//! The command that merges a diff into a memory file: `edit-memory rebase --memory-path BASE --diff-path DIFF`.
//!
//! `rebase_main` judges the words before anything is read, rebases the files, and writes the last line of a run that
//! didn't merge: `. usage`, `. refused N`, `. fault Files` or `. memory`. Its contract joins the words, the files, what
//! the sink took and the causes.
#![tactic(auto)]

mod end;
mod last_line;
mod top;
mod words;

pub use end::End;
pub use top::{rebase_main, refuse};
