// Why a file is not read or written.

/// Why a file is not read or written.
#[derive(Clone, Copy, Drop)]
pub enum FileError {
    /// A call on files failed, and was counted.
    Fault,
    /// There was no memory. No call failed.
    OutOfMemory,
}
