// Why nothing was read.
ghost use Rattle.std.specs.Prelude.{◌≡◌};
ghost use Rattle.file_format.specs.declared.error.ReadError.TheVariants.{Memory};
ghost use Rattle.file_format.specs.Refusing.{refusal_of};

use refusals::Refusal;
use std::alloc::{AllocError, AllocFailed};

/// Why nothing was read.
#[derive(Clone, Copy, Drop)]
pub enum ReadError {
    /// The bytes encode nothing.
    Bad,
    /// There was no memory.
    Memory,
}

impl From<AllocError> for ReadError {
    ghost from_gives = { λ _ e. e ≡ Memory };

    fn from(_e: AllocError) -> ReadError {
        ReadError::Memory
    }
}

impl<T: Drop> From<AllocFailed<T>> for ReadError {
    ghost from_gives = { λ _ e. e ≡ Memory };

    fn from(_e: AllocFailed<T>) -> ReadError {
        ReadError::Memory
    }
}

/// Why a file wasn't read: the first cause that fits.
#[derive(Clone, Copy, Drop)]
pub enum DecodeError {
    /// It is shorter than its header, or its gate is closed.
    GateClosed,
    /// It has another magic or version.
    WrongMagic,
    /// It is the encoding of nothing.
    BadField,
    /// There was no memory.
    OutOfMemory,
}

impl DecodeError {
    /// The refusal that tells it.
    pub fn refusal(&self) -> Refusal
        ensures { result ≡ refusal_of self.now }
    {
        match self {
            DecodeError::GateClosed => Refusal::GateClosed,
            DecodeError::WrongMagic => Refusal::WrongMagic,
            DecodeError::BadField => Refusal::BadField,
            DecodeError::OutOfMemory => Refusal::OutOfMemory,
        }
    }
}
