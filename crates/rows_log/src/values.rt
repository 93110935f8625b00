//! The values that words of several subjects give.
use repl_lsn::{SegSize, Tli};
use rows_table::{Miss, short};

/// A size of segments.
pub fn size(word: &[u8]) -> Result<SegSize, Miss> {
    SegSize::new(short(word)?).ok_or(Miss::Words)
}

/// A timeline.
pub fn timeline(word: &[u8]) -> Result<Tli, Miss> {
    Tli::new(short(word)?).ok_or(Miss::Words)
}
