ghost use Rattle.std.specs.Prelude.{◌≡◌};
ghost use Rattle.repl_sync.specs.declared.fault.SyncFault.TheVariants.{Memory};

use std::alloc::{AllocError, AllocFailed};
use thiserror::Error;

/// Why an event changed nothing.
#[derive(Clone, Copy, Debug, PartialEq, Eq, Error)]
pub enum SyncFault {
    /// A session with this number is connected already.
    #[error("the session is known")]
    Known,
    /// There is no such session or ticket, or the ticket is not one that may wait.
    #[error("the session or the ticket is unknown")]
    Unknown,
    /// The ticket 2^64 - 1 was given.
    #[error("no ticket is left")]
    NoTicketLeft,
    #[error("out of memory")]
    Memory,
}

impl From<AllocError> for SyncFault {
    ghost from_gives = { λ _ e. e ≡ Memory };

    fn from(_error: AllocError) -> SyncFault {
        SyncFault::Memory
    }
}

impl<T: Drop> From<AllocFailed<T>> for SyncFault {
    ghost from_gives = { λ _ e. e ≡ Memory };

    fn from(_error: AllocFailed<T>) -> SyncFault {
        SyncFault::Memory
    }
}
