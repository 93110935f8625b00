use crate::name::{ParameterName, SlotName};
use bytes::Bytes;
use repl_lsn::{Lsn, Tli};
use repl_names::{Setting, StandbyList};

/// What a client asks for: a command of a replication connection (PostgreSQL 17 manual, section "Streaming
/// Replication Protocol"), or a statement of an ordinary one. Each is one that some text says.
#[derive(Debug, Drop)]
pub enum Command {
    /// `IDENTIFY_SYSTEM`: who the server is, and how far its log is flushed.
    IdentifySystem,
    /// `SHOW`: the value of a parameter.
    Show(ParameterName),
    /// `TIMELINE_HISTORY`: the history file of a timeline.
    TimelineHistory(Tli),
    /// `CREATE_REPLICATION_SLOT`: makes a physical slot.
    CreateSlot {
        name: SlotName,
        /// Whether it goes when its session ends.
        temporary: bool,
        /// Whether it keeps the log from now on, and not from its first use.
        reserve: bool,
    },
    /// `DROP_REPLICATION_SLOT`.
    DropSlot {
        name: SlotName,
        /// Whether to wait while another session holds the slot.
        wait: bool,
    },
    /// `READ_REPLICATION_SLOT`: where the slot begins.
    ReadSlot(SlotName),
    /// `START_REPLICATION`: streams the log from a position on.
    StartReplication {
        slot: Option<SlotName>,
        at: Lsn,
        /// Without it, the server's own timeline.
        timeline: Option<Tli>,
    },
    /// `APPEND`: adds a record of a transaction to the log. This project's own.
    Append {
        xid: u32,
        body: Bytes,
    },
    /// `SET synchronous_commit`: how far the session's commits wait.
    SetCommit(Setting),
    /// `ALTER SYSTEM SET synchronous_standby_names`: which standbys confirm a commit.
    SetNames(StandbyList),
    /// `PROMOTE`: makes a standby the primary, on a timeline not below this one. This project's own, as the rest.
    Promote(Option<Tli>),
    /// `DEMOTE`: makes a primary a standby.
    Demote,
    /// `TRIM`: removes the segments that nobody needs.
    Trim,
    /// `STATUS`: how the node is.
    Status,
    /// `STOP`: ends the node.
    Stop,
}
