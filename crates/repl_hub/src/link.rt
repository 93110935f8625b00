//! A connection.

/// The most connections of standbys that there may be: `max_wal_senders`.
pub const REPLICATION_LIMIT: u64 = 10;

/// The most other connections that there may be: `max_connections`.
pub const ORDINARY_LIMIT: u64 = 100;

/// The greatest number of a session.
pub const LAST_SESSION: u64 = 4_294_967_295;

// What is answered at a limit tells these numbers.
const _: () = prove!(REPLICATION_LIMIT == 10);

const _: () = prove!(ORDINARY_LIMIT == 100);

const _: () = prove!(LAST_SESSION == 4_294_967_295);

/// A connection: its session's number, and whether it is one of a standby.
#[derive(Clone, Copy, Debug, PartialEq, Eq)]
pub struct Link {
    pub number: u64,
    pub replication: bool,
}
