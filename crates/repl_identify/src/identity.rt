use repl_lsn::{Lsn, Tli};

/// What a server says of itself to IDENTIFY_SYSTEM (PostgreSQL 17 manual, section "Streaming Replication
/// Protocol").
#[derive(Clone, Copy, Debug, PartialEq, Eq)]
pub struct SystemIdentity {
    /// The cluster's system identifier.
    pub system: u64,
    /// The timeline it is on.
    pub timeline: Tli,
    /// The end of the flushed log.
    pub flushed: Lsn,
}
