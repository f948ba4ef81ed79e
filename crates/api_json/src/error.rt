// Why a request is no call.
ghost use Rattle.std.specs.Prelude.{◌≡◌};
ghost use Rattle.api_json.specs.declared.error.ReadError.TheVariants.{OutOfMemory, Refused};

use refusals::Refusal;
use std::alloc::AllocError;

/// Why a request is no call: its first refusal, or there was no memory.
#[derive(Clone, Copy, Drop)]
pub enum ReadError {
    Refused(Refusal),
    OutOfMemory,
}

impl From<Refusal> for ReadError {
    ghost from_gives = { λ why e. e ≡ Refused why };

    fn from(why: Refusal) -> ReadError {
        ReadError::Refused(why)
    }
}

impl From<AllocError> for ReadError {
    ghost from_gives = { λ _ e. e ≡ OutOfMemory };

    fn from(_: AllocError) -> ReadError {
        ReadError::OutOfMemory
    }
}
