use thiserror::Error;

/// Why bytes are not the header that is expected there. Each tells the field as it is found and as it is expected.
#[derive(Clone, Copy, Debug, PartialEq, Eq, Error)]
pub enum PageFault {
    /// The magic number differs.
    #[error("page magic {found:04x} and not {expected:04x}")]
    Magic { found: u64, expected: u64 },
    /// One of the two lowest flags differs.
    #[error("page flags {found:04x} and not {expected:04x}")]
    Info { found: u64, expected: u64 },
    /// The timeline differs.
    #[error("page of timeline {found} and not {expected}")]
    Timeline { found: u64, expected: u64 },
    /// The address differs.
    #[error("page address {found:x} and not {expected:x}")]
    Address { found: u64, expected: u64 },
    /// The number of a record's remaining bytes differs.
    #[error("{found} bytes of a record remain and not {expected}")]
    RemLen { found: u64, expected: u64 },
    /// The system's identifier differs.
    #[error("page of system {found} and not {expected}")]
    SysId { found: u64, expected: u64 },
    /// The size of segments differs.
    #[error("segments of {found} bytes and not {expected}")]
    SegSize { found: u64, expected: u64 },
    /// The size of pages differs.
    #[error("pages of {found} bytes and not {expected}")]
    BlockSize { found: u64, expected: u64 },
}
