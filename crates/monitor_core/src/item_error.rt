// Why an item is not done to its end.
ghost use Rattle.std.specs.Prelude.{◌≡◌};
ghost use Rattle.monitor_core.specs.declared.item_error.ItemError.TheVariants.{OutOfMemory};

use std::alloc::AllocError;

/// Why an item is not done to its end.
#[derive(Clone, Copy, Drop)]
pub enum ItemError {
    /// A call on the files failed, at a file line.
    FilesFailed,
    /// There was no memory, not even for an answer that says so.
    OutOfMemory,
}

impl From<AllocError> for ItemError {
    ghost from_gives = { λ _ e. e ≡ OutOfMemory };

    fn from(_: AllocError) -> ItemError {
        ItemError::OutOfMemory
    }
}
