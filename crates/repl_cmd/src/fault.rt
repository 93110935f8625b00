ghost use Rattle.std.specs.Prelude.{◌≡◌};

use repl_names::NamesFault;
use std::alloc::{AllocError, AllocFailed};
use thiserror::Error;

/// What PostgreSQL's walsender knows and this project leaves out.
#[derive(Clone, Copy, Debug, PartialEq, Eq)]
pub enum Unsupported {
    /// Logical replication.
    Logical,
    /// `BASE_BACKUP`.
    BaseBackup,
    /// `UPLOAD_MANIFEST`.
    UploadManifest,
    /// `ALTER_REPLICATION_SLOT`.
    AlterSlot,
}

/// Why a text is no command. Places are those of a token's first byte, from 0.
#[derive(Clone, Copy, Debug, PartialEq, Eq, Error)]
pub enum CmdFault {
    /// The first token with which no command goes on stands here, or the text ends here too early.
    #[error("syntax error at byte {0}")]
    Syntax(u64),
    /// The command is known and left out.
    #[error("not supported")]
    Unsupported(Unsupported),
    /// The slot's name at this place is none.
    #[error("bad slot name at byte {0}")]
    BadSlotName(u64),
    /// A position is wanted here, and the word is none.
    #[error("bad position at byte {0}")]
    BadLsn(u64),
    /// A number is wanted here, and the word is none, or out of range.
    #[error("bad number at byte {0}")]
    BadNumber(u64),
    /// The text in quotes is no standby list. Places count from the first byte of what is quoted, after every two
    /// quotes in it became one.
    #[error("bad standby list: {0}")]
    BadNames(NamesFault),
    /// There is no memory.
    #[error("out of memory")]
    Memory,
}

impl From<AllocError> for CmdFault {
    ghost use Rattle.repl_cmd.specs.declared.fault.CmdFault.TheVariants.{Memory};

    ghost from_gives = { λ _ e. e ≡ Memory };

    fn from(_error: AllocError) -> CmdFault {
        CmdFault::Memory
    }
}

impl<T: Drop> From<AllocFailed<T>> for CmdFault {
    ghost use Rattle.repl_cmd.specs.declared.fault.CmdFault.TheVariants.{Memory};

    ghost from_gives = { λ _ e. e ≡ Memory };

    fn from(_error: AllocFailed<T>) -> CmdFault {
        CmdFault::Memory
    }
}
