// That a run comes to no line.

use std::alloc::AllocError;

/// A call on the files failed, or there was no memory.
#[derive(Clone, Copy, Drop)]
pub struct NoLine;

impl From<AllocError> for NoLine {
    fn from(_: AllocError) -> NoLine {
        NoLine
    }
}
