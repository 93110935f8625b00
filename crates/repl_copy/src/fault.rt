use thiserror::Error;

/// A payload that spells nothing.
#[derive(Clone, Copy, Debug, PartialEq, Eq, Error)]
pub enum CopyFault {
    /// It has no byte.
    #[error("no kind")]
    Empty,
    /// Its first byte is none of a kind of this side.
    #[error("no message of kind {0}")]
    Kind(u8),
    /// No message of its kind has so many bytes.
    #[error("wrong length {have}")]
    Length { have: u64 },
    /// Its last byte, which asks for a reply or does not, is neither 0 nor 1.
    #[error("no flag {0}")]
    Flag(u8),
}
