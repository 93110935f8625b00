//! What a node that serves sessions is asked.
ghost use Rattle.std.specs.Prelude.{◌≡◌};
ghost use Rattle.repl_hub.specs.Quiet.{is_quiet};

use bytes::Bytes;
use repl_lsn::{History, Lsn, Tli};
use repl_names::{Mode, StandbyList};
use repl_record::RecordIn;
use repl_sync::FeedbackValue;
use repl_text::Text;

/// One event of a hub. `HubReply` has the same variants, with what is replied.
#[derive(Debug, Drop)]
pub enum HubEvent {
    /// What the node is, and how far its log stands.
    Identify,
    /// The text of a timeline's history.
    History(Tli),
    /// The log's bytes from a position on: at most so many, of which 0 counts as 1, and more than `READ_LIMIT` as that.
    Read {
        tli: Tli,
        at: Lsn,
        most: u64,
    },
    /// A record is added to a primary's log.
    Append(RecordIn),
    /// All written bytes are made certain.
    Flush,
    /// Bytes of another node's log are added to a standby's.
    Receive {
        tli: Tli,
        start: Lsn,
        bytes: Bytes,
    },
    /// A standby goes over to a child of its timeline.
    Follow(History),
    /// A standby becomes a primary, on a timeline with at least this number.
    Promote(u32),
    /// A primary becomes a standby.
    Demote,
    /// The floor rises, but not above so many bytes before the flushed end.
    Trim(u64),
    /// What the node is, how many sessions stream, and whether a `Stop` came.
    Status,
    /// A slot is made, which begins at the flushed end where that is reserved.
    SlotCreate {
        session: u64,
        name: Text,
        temporary: bool,
        reserve: bool,
    },
    SlotDrop {
        session: u64,
        name: Text,
    },
    /// Where the slot with this name begins.
    SlotRead(Text),
    SlotAcquire {
        session: u64,
        name: Text,
    },
    /// The session's slots are nobody's.
    SlotRelease(u64),
    /// The reader of the session's slots needs the log no more before a position.
    SlotConfirm {
        session: u64,
        at: Lsn,
    },
    /// The slots are made certain.
    SlotSave,
    /// A session begins, of a standby with this name or of another client.
    Connect {
        name: Text,
        replication: bool,
    },
    /// The session begins to stream this timeline.
    Streaming {
        session: u64,
        tli: Tli,
    },
    StopStreaming(u64),
    /// The session's standby has written, flushed and applied so far.
    Report {
        session: u64,
        written: Lsn,
        flushed: Lsn,
        applied: Lsn,
    },
    /// The session's standby tells its oldest transactions.
    Feedback {
        session: u64,
        value: FeedbackValue,
    },
    /// The session ends.
    Disconnect(u64),
    /// This list of standbys is in force from here on.
    SetNames(StandbyList),
    /// A ticket for a commit.
    Prepare,
    /// The ticket's commit, which ends here, waits for the standbys that the list demands.
    Wait {
        ticket: u64,
        end: Lsn,
        mode: Mode,
    },
    /// What has become of the ticket's commit.
    Look(u64),
    /// The ticket's commit waits no more.
    Cancel(u64),
    /// The list in force.
    Names,
    /// The node serves no more: no session begins, and no commit waits.
    Stop,
}

impl HubEvent {
    /// Whether the event changes nothing that another session waits for: it moves no end, releases no commit and stops
    /// nothing.
    pub fn is_quiet(&self) -> bool
        ensures { result ≡ is_quiet self.now }
    {
        matches!(
            self,
            HubEvent::Identify
                | HubEvent::History(_)
                | HubEvent::Read { .. }
                | HubEvent::Status
                | HubEvent::SlotRead(_)
                | HubEvent::Feedback { .. }
                | HubEvent::Prepare
                | HubEvent::Look(_)
                | HubEvent::Names
        )
    }
}
