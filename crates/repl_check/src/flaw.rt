//! What is wrong with a log.
use repl_lsn::Lsn;
use repl_record::WalkReason;

/// What is wrong with a log that does not fit what its store says of it.
#[derive(Clone, Copy, Debug, PartialEq, Eq)]
pub enum Flaw {
    /// Where the store says that the last whole record ends, it does not.
    Whole,
    /// There it ends, and starts elsewhere than the store says.
    Last,
    /// After the last whole record, or where the log begins, stands what is no record.
    Bad {
        /// Where the record begins, or, for a page's header, the page's address.
        at: Lsn,
        why: WalkReason,
    },
}
