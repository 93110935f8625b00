use bytes::Bytes;
use repl_lsn::Lsn;
use std::alloc::{AllocError, AllocFailed};
use thiserror::Error;

/// The most bytes that a record's body has.
pub const BODY_LIMIT: usize = 1_048_576;

const _: () = prove!(BODY_LIMIT == 1_048_576);

/// How many bytes a record has before its body.
pub(crate) const HEAD_LENGTH: usize = 24;

/// What a record says.
#[derive(Debug, Drop)]
pub struct RecordIn {
    /// The number of the transaction that wrote it, or 0.
    pub xid: u32,
    /// Flags of the resource manager.
    pub info: u8,
    /// The number of the resource manager.
    pub rmid: u8,
    pub body: Bytes,
}

/// A record as it stands in the log.
#[derive(Debug, Drop)]
pub struct Laid {
    /// The bytes of the log from where the record was laid to `end`.
    pub bytes: Bytes,
    /// The position of the record's first byte.
    pub start: Lsn,
    /// The position after the last of the bytes.
    pub end: Lsn,
}

/// Why a record cannot be laid out.
#[derive(Clone, Copy, Debug, PartialEq, Eq, Error)]
pub enum RecordRefusal {
    /// Its body has more bytes than a body may have.
    #[error("a body of {len} bytes is too long")]
    TooLong { len: u64 },
    /// There is no memory.
    #[error("no memory")]
    Memory,
}

impl From<AllocError> for RecordRefusal {
    ghost use Rattle.std.specs.Prelude.{◌≡◌};
    ghost use Rattle.repl_record.specs.declared.record.RecordRefusal.TheVariants.{Memory};

    ghost from_gives = { λ _ e. e ≡ Memory };

    fn from(_error: AllocError) -> RecordRefusal {
        RecordRefusal::Memory
    }
}

impl<T: Drop> From<AllocFailed<T>> for RecordRefusal {
    ghost use Rattle.std.specs.Prelude.{◌≡◌};
    ghost use Rattle.repl_record.specs.declared.record.RecordRefusal.TheVariants.{Memory};

    ghost from_gives = { λ _ e. e ≡ Memory };

    fn from(_error: AllocFailed<T>) -> RecordRefusal {
        RecordRefusal::Memory
    }
}
