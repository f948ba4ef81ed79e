// Why a store is not changed.
ghost use Rattle.std.specs.Prelude.{◌≡◌};
ghost use Rattle.metadata_store.specs.declared.error.StoreError.TheVariants.{OutOfMemory, Refused};

use refusals::Refusal;
use std::alloc::AllocError;

/// Why a store is not changed: the first refusal, or there was no memory.
#[derive(Clone, Copy, Drop)]
pub enum StoreError {
    Refused(Refusal),
    OutOfMemory,
}

impl From<Refusal> for StoreError {
    ghost from_gives = { λ why e. e ≡ Refused why };

    fn from(why: Refusal) -> StoreError {
        StoreError::Refused(why)
    }
}

impl From<AllocError> for StoreError {
    ghost from_gives = { λ _ e. e ≡ OutOfMemory };

    fn from(_: AllocError) -> StoreError {
        StoreError::OutOfMemory
    }
}
