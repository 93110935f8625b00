use repl_lsn::Lsn;
use repl_page::PageFault;
use thiserror::Error;

/// What a walker answers of the bytes that it was given.
#[derive(Clone, Copy, Debug, PartialEq, Eq)]
pub enum WalkStep {
    /// A record is whole.
    Whole {
        /// The position of its first byte.
        start: Lsn,
        /// The position after its image: after its last byte, rounded up to a multiple of 8.
        end: Lsn,
        /// How many of the bytes were taken. Those after are the next record's.
        used: usize,
    },
    /// All bytes were taken, and no record is whole.
    Short,
    /// No records go on so. This is answered from now on.
    Bad {
        /// Where the record begins, or, for a page's header, the page's address.
        at: Lsn,
        why: WalkReason,
    },
}

/// Why bytes are no record.
#[derive(Clone, Copy, Debug, PartialEq, Eq, Error)]
pub enum WalkReason {
    /// The header of a page differs from what is due there.
    #[error("{0}")]
    Page(PageFault),
    /// No record has this length: it has 24 to 1,048,600 bytes.
    #[error("a record of {found} bytes")]
    Length { found: u32 },
    /// The record does not follow the one before it.
    #[error("a record after the one at {:x} and not at {:x}", found.0, expected.0)]
    Prev { found: Lsn, expected: Lsn },
    /// The two reserved bytes are not zero.
    #[error("reserved bytes are set")]
    Reserved,
    /// The checksum is not that of the record.
    #[error("checksum {found:08x} of a record with {computed:08x}")]
    Checksum { found: u32, computed: u32 },
    /// A byte between the record and the next multiple of 8 is not zero.
    #[error("bytes after the record are set")]
    Padding,
}
