ghost use Rattle.std.specs.Prelude.{◌≡◌};
ghost use Rattle.repl_message.specs.declared.fault.EncodeFault.TheVariants.{Memory};

use std::alloc::{AllocError, AllocFailed};
use thiserror::Error;

/// Why a message was not encoded. What the bytes were to be appended to is then as before.
#[derive(Clone, Copy, Debug, PartialEq, Eq, Error)]
pub enum EncodeFault {
    /// The length field would be above its limit: it would be `length`, or at least 2^64 - 1.
    #[error("a message of length {length} is too long")]
    TooLong { length: u64 },
    #[error("out of memory")]
    Memory,
}

impl From<AllocError> for EncodeFault {
    ghost from_gives = { λ _ e. e ≡ Memory };

    fn from(_error: AllocError) -> EncodeFault {
        EncodeFault::Memory
    }
}

impl<T: Drop> From<AllocFailed<T>> for EncodeFault {
    ghost from_gives = { λ _ e. e ≡ Memory };

    fn from(_error: AllocFailed<T>) -> EncodeFault {
        EncodeFault::Memory
    }
}
