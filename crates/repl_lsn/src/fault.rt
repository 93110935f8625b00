use std::alloc::{AllocError, AllocFailed};
use thiserror::Error;

/// Why a text is no history of a timeline. Lines are counted from 1.
#[derive(Clone, Copy, Debug, PartialEq, Eq, Error)]
pub enum HistoryFault {
    /// It has, or would have, more than 65,536 bytes.
    #[error("a history of {have} bytes is too long")]
    TooLong { have: u64 },
    /// The line does not begin with a number from 1 to 4,294,967,295.
    #[error("line {0} has no timeline")]
    NotNumber(u64),
    /// No position is after the line's number.
    #[error("line {0} has no switch point")]
    NotSwitch(u64),
    /// The line's number is not above that of the line before.
    #[error("line {0} has a timeline that is not above the one before")]
    NotIncreasing(u64),
    /// The line's number is not below that of the timeline whose history it is.
    #[error("line {0} has a timeline that is not below the history's own")]
    NotBelowOwn(u64),
    /// The line's switch point is before that of the line before.
    #[error("line {0} has a switch point before the one above")]
    SwitchFalls(u64),
    #[error("out of memory")]
    Memory,
}

impl From<AllocError> for HistoryFault {
    ghost use Rattle.std.specs.Prelude.{◌≡◌};
    ghost use Rattle.repl_lsn.specs.declared.fault.HistoryFault.TheVariants.{Memory};

    ghost from_gives = { λ _ e. e ≡ Memory };

    fn from(_error: AllocError) -> HistoryFault {
        HistoryFault::Memory
    }
}

impl<T: Drop> From<AllocFailed<T>> for HistoryFault {
    ghost use Rattle.std.specs.Prelude.{◌≡◌};
    ghost use Rattle.repl_lsn.specs.declared.fault.HistoryFault.TheVariants.{Memory};

    ghost from_gives = { λ _ e. e ≡ Memory };

    fn from(_error: AllocFailed<T>) -> HistoryFault {
        HistoryFault::Memory
    }
}
