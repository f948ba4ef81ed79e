// Why a merge is not done.
use refusals::Refusal;

/// Why a merge is not done.
#[derive(Clone, Copy, Drop)]
pub enum RebaseError {
    /// By the first rule that fits. Nothing was written.
    Refused(Refusal),
    /// A call on the files failed, and was counted.
    Fault,
    /// There was no memory. Nothing was written.
    OutOfMemory,
}
