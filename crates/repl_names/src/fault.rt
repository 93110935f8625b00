ghost use Rattle.std.specs.Prelude.{◌≡◌};
ghost use Rattle.repl_names.specs.declared.fault.NamesFault.TheVariants.{Memory};

use std::alloc::{AllocError, AllocFailed};
use thiserror::Error;

/// Why a text is no standby list. Places count from the text's first byte.
#[derive(Clone, Copy, Debug, PartialEq, Eq, Error)]
pub enum NamesFault {
    /// The place of the token with which no list goes on, or the text's length.
    #[error("syntax error at {0}")]
    Syntax(u64),
    /// The place of a quote that opens a name and is not closed.
    #[error("quotes at {0} do not end")]
    OpenQuote(u64),
    /// The place of a number that is 0.
    #[error("the number at {0} is 0")]
    Zero(u64),
    /// The place of a number above 2,147,483,647.
    #[error("the number at {0} is too large")]
    TooLarge(u64),
    /// The spelling of the list would be above 65,536 bytes: it would have `have`, or at least 2^64 - 1.
    #[error("a list of {have} bytes is too long")]
    TooLong { have: u64 },
    #[error("out of memory")]
    Memory,
}

impl From<AllocError> for NamesFault {
    ghost from_gives = { λ _ e. e ≡ Memory };

    fn from(_error: AllocError) -> NamesFault {
        NamesFault::Memory
    }
}

impl<T: Drop> From<AllocFailed<T>> for NamesFault {
    ghost from_gives = { λ _ e. e ≡ Memory };

    fn from(_error: AllocFailed<T>) -> NamesFault {
        NamesFault::Memory
    }
}
