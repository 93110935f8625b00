//! What a hub replies.
use bytes::Bytes;
use repl_lsn::{Lsn, Tli};
use repl_names::StandbyList;
use repl_node::{Identity, NodeFault, SlotFault};
use repl_sync::{Look, SyncFault};
use std::alloc::AllocError;
use thiserror::Error;

/// The bytes of the log that a `Read` gives.
#[derive(Debug, Drop)]
pub enum LogRead {
    /// These bytes, which are one or more.
    Bytes(Bytes),
    /// The position is the flushed end.
    AtEnd,
    /// At this position the timeline was left for the next one.
    Ended { next: Tli, switch: Lsn },
}

/// What a `Status` tells.
#[derive(Clone, Copy, Debug, PartialEq, Eq)]
pub struct HubStatus {
    pub identity: Identity,
    /// How many sessions stream.
    pub streaming: usize,
    /// A `Stop` came.
    pub stopped: bool,
}

/// Where a slot begins.
#[derive(Clone, Copy, Debug, PartialEq, Eq)]
pub enum SlotPlace {
    /// No slot has this name.
    NoSlot,
    /// The slot holds nothing back yet.
    NoPosition,
    /// At this position, which is on this timeline of the path.
    At { restart: Lsn, tli: Tli },
}

/// Why a session does not begin.
#[derive(Clone, Copy, Debug, PartialEq, Eq, Error)]
pub enum ConnectFault {
    /// A `Stop` came.
    #[error("the node has stopped")]
    Stopped,
    /// So many sessions of its kind are there, which are as many as may be; or the last number of a session was given.
    #[error("{there} connections are there")]
    TooMany { there: u64 },
    #[error("out of memory")]
    Memory,
}

/// Why a commit does not wait.
#[derive(Clone, Copy, Debug, PartialEq, Eq, Error)]
pub enum WaitFault {
    /// The ticket is not one that may wait.
    #[error("the ticket is unknown")]
    Unknown,
    /// The commit's end lies past the flushed end, so that it is not certain here.
    #[error("flushed up to {flushed}")]
    NotFlushed { flushed: Lsn },
}

/// What is replied to an event: the variant of the same name.
#[derive(Debug, Drop)]
pub enum HubReply {
    Identify(Identity),
    History(Result<Bytes, NodeFault>),
    Read(Result<LogRead, NodeFault>),
    /// Where the record ends.
    Append(Result<Lsn, NodeFault>),
    /// The flushed end.
    Flush(Result<Lsn, NodeFault>),
    /// The written end.
    Receive(Result<Lsn, NodeFault>),
    Follow(Result<(), NodeFault>),
    /// The new timeline, and where it begins.
    Promote(Result<(Tli, Lsn), NodeFault>),
    Demote(Result<(), NodeFault>),
    /// The floor.
    Trim(Result<Lsn, NodeFault>),
    Status(HubStatus),
    SlotCreate(Result<(), SlotFault>),
    SlotDrop(Result<(), SlotFault>),
    SlotRead(SlotPlace),
    SlotAcquire(Result<(), SlotFault>),
    SlotRelease,
    SlotConfirm,
    SlotSave(Result<(), SlotFault>),
    /// The session's number.
    Connect(Result<u64, ConnectFault>),
    Streaming(Result<(), SyncFault>),
    StopStreaming(Result<(), SyncFault>),
    Report(Result<(), SyncFault>),
    Feedback(Result<(), SyncFault>),
    Disconnect(Result<(), SyncFault>),
    SetNames(Result<(), AllocError>),
    /// The ticket.
    Prepare(Result<u64, SyncFault>),
    Wait(Result<(), WaitFault>),
    Look(Look),
    Cancel(Result<(), SyncFault>),
    Names(Result<StandbyList, AllocError>),
    Stop,
}
