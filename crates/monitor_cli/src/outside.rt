// What a program is handed.
use vm_outside::{Files, Sink, Source};

/// The host objects that a program is handed.
#[derive(Drop)]
pub struct Outside<I: Source, O: Sink, F: Files> {
    pub source: I,
    pub sink: O,
    pub files: F,
}
