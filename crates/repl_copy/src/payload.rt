use bytes::Bytes;
use repl_lsn::Lsn;

/// The most bytes of the log that a server sends in one message.
pub const WAL_LIMIT: u64 = 131_072;

const _: () = prove!(WAL_LIMIT == 131_072);

/// How many bytes stand before those of the log in a piece of it.
pub(crate) const WAL_HEAD: usize = 25;

/// How many bytes a keepalive has.
pub(crate) const KEEPALIVE_LENGTH: usize = 18;

/// How many bytes a status has.
pub(crate) const STATUS_LENGTH: usize = 34;

/// How many bytes feedback has.
pub(crate) const FEEDBACK_LENGTH: usize = 25;

/// What a server sends while it streams. Clocks are microseconds since 2000-01-01, midnight UTC.
#[derive(Debug, Drop)]
pub enum Stream {
    /// A piece of the log: XLogData, `w`.
    Wal {
        /// The position of its first byte.
        start: Lsn,
        /// Up to where the server's log is flushed.
        end: Lsn,
        /// The server's clock when it was sent.
        clock: u64,
        bytes: Bytes,
    },
    /// A keepalive: `k`.
    Keepalive {
        /// Up to where the server's log is flushed.
        end: Lsn,
        /// The server's clock when it was sent.
        clock: u64,
        /// Whether a status is asked for at once.
        reply: bool,
    },
}

/// What a standby sends while it is streamed to. Clocks are microseconds since 2000-01-01, midnight UTC.
#[derive(Clone, Copy, Debug, PartialEq, Eq)]
pub enum Reply {
    /// Its positions, each that of the byte after the last: a standby status update, `r`.
    Status {
        written: Lsn,
        flushed: Lsn,
        applied: Lsn,
        /// The standby's clock when it was sent.
        clock: u64,
        /// Whether a keepalive is asked for at once.
        reply: bool,
    },
    /// The oldest transactions that it needs: hot standby feedback, `h`.
    Feedback {
        /// The standby's clock when it was sent.
        clock: u64,
        xmin: u32,
        epoch: u32,
        catalog_xmin: u32,
        catalog_epoch: u32,
    },
}
