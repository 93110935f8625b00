//! The sessions and tickets of a server, and the events that change them.
ghost use Rattle.std.specs.Prelude.{◌≡◌, ◌↔◌, [], IsTrue, Some, filter, length};
ghost use Rattle.repl_text.specs.Text.{IsText};
ghost use Rattle.repl_sync.specs.State.{IsState, Prepared, fate_of};
ghost use Rattle.repl_names.specs.declared.list.Method.TheVariants as Method;
ghost use Rattle.repl_sync.specs.Sync.{SyncStep, done, given, stored, Connect, Streaming, StopStreaming, Disconnect, Report, Feedback, SetNames, NewTimeline, Prepare, Wait, WaitCancelled, ToLook, Cancel, CancelAll, Done, Looked};

use crate::certificate::Look;
use crate::change::{change_session, forget, stop_all};
use crate::fault::SyncFault;
use crate::parts::Parts;
use crate::prepare::{connect, prepare, rename};
use crate::session::{Change, FeedbackValue, count_streaming};
use crate::ticket::{begin, cancel, cancel_all, is_prepared, look};
use repl_lsn::Lsn;
use repl_names::{Mode, StandbyList};
use std::alloc::{AllocError, Global};
use std::marker::Model;

/// Who is waited for: sessions, the list in force, and the tickets of commits.
#[derive(Drop)]
pub struct SyncState {
    parts: Parts,
}

impl Model for SyncState {
    ghost use Rattle.repl_sync.specs.State.{State};

    ghost Value = { State };

    ghost use Rattle.repl_sync.specs.Inside.{state_of, IsKept};

    ghost view = { λ s. state_of s.parts };

    ghost invariant = { λ s. IsKept s.parts };
}

impl SyncState {
    /// No session, no ticket, and the list without names. Takes no memory.
    pub fn new(alloc: Global) -> SyncState
        ensures { result ≡ record { sessions = []; list = record { method = Method.First; number = 0; names = [] }; tickets = []; last = 0 } }
    {
        SyncState {
            parts: Parts {
                entries: Vec::new(alloc),
                list: StandbyList::none(alloc),
                holdings: Vec::new(alloc),
                last: 0,
                order: Vec::new(alloc),
            },
        }
    }

    /// A standby with this name connects. `Known` where the session is connected already. Takes memory for the session
    /// and for the certificates of all tickets that may be released yet; where that is refused, nothing changes.
    pub fn connect(&mut self, alloc: Global, session: u64, name: &[u8]) -> Result<(), SyncFault>
        requires { IsText name.now }
        ensures { SyncStep self.old (Connect session name.now) (done result) self.new }
    {
        connect(alloc, &mut self.parts, session, name)
    }

    /// The session begins to stream. `Unknown` where it is not connected. Takes no memory.
    pub fn streaming(&mut self, session: u64) -> Result<(), SyncFault>
        ensures { SyncStep self.old (Streaming session) (done result) self.new }
    {
        if change_session(&mut self.parts, session, Change::Start) {
            Ok(())
        } else {
            Err(SyncFault::Unknown)
        }
    }

    /// The session streams no more, and its reports are forgotten. `Unknown` where it is not connected. Takes no
    /// memory.
    pub fn stop_streaming(&mut self, session: u64) -> Result<(), SyncFault>
        ensures { SyncStep self.old (StopStreaming session) (done result) self.new }
    {
        if change_session(&mut self.parts, session, Change::Stop) {
            Ok(())
        } else {
            Err(SyncFault::Unknown)
        }
    }

    /// The session is gone. `Unknown` where it is not connected. Takes no memory.
    pub fn disconnect(&mut self, session: u64) -> Result<(), SyncFault>
        ensures { SyncStep self.old (Disconnect session) (done result) self.new }
    {
        if forget(&mut self.parts, session) {
            Ok(())
        } else {
            Err(SyncFault::Unknown)
        }
    }

    /// The session's standby has written, flushed and applied so far. Counts for nothing where the session does not
    /// stream, and no position falls. `Unknown` where it is not connected. Takes no memory.
    pub fn report(
        &mut self,
        session: u64,
        written: Lsn,
        flushed: Lsn,
        applied: Lsn,
    ) -> Result<(), SyncFault>
        ensures { SyncStep self.old (Report session written flushed applied) (done result) self.new }
    {
        let change = Change::Report(written.0, flushed.0, applied.0);
        if change_session(&mut self.parts, session, change) {
            Ok(())
        } else {
            Err(SyncFault::Unknown)
        }
    }

    /// The session's standby tells what it needs, which is kept and changes nothing else. `Unknown` where it is not
    /// connected. Takes no memory.
    pub fn feedback(&mut self, session: u64, value: FeedbackValue) -> Result<(), SyncFault>
        ensures { SyncStep self.old (Feedback session value) (done result) self.new }
    {
        if change_session(&mut self.parts, session, Change::Tell(value)) {
            Ok(())
        } else {
            Err(SyncFault::Unknown)
        }
    }

    /// Puts this list in force. Takes memory for a copy of it, and for the certificates of all tickets that may be
    /// released yet; where that is refused, nothing changes.
    pub fn set_names(&mut self, alloc: Global, list: &StandbyList) -> Result<(), AllocError>
        ensures { SyncStep self.old (SetNames list.now) (stored result) self.new }
    {
        rename(alloc, &mut self.parts, list)
    }

    /// The list in force.
    pub fn names(&self) -> &StandbyList
        ensures { result.now ≡ self.now.list }
    {
        &self.parts.list
    }

    /// How many sessions stream.
    pub fn streaming_sessions(&self) -> usize
        ensures count { result ≡ length (filter (λ s. s.streaming) self.now.sessions) }
        ensures state { IsState self.now }
    {
        count_streaming(&self.parts.entries)
    }

    /// The server's log goes on with another timeline: no session streams, and no report from before counts. Takes no
    /// memory.
    pub fn new_timeline(&mut self)
        ensures { SyncStep self.old NewTimeline Done self.new }
    {
        stop_all(&mut self.parts);
    }

    /// Gives a ticket, which is one above the last, from 1. `NoTicketLeft` where the ticket 2^64 - 1 was given. Takes
    /// memory for the ticket and its certificate.
    pub fn prepare(&mut self, alloc: Global) -> Result<u64, SyncFault>
        ensures { SyncStep self.old Prepare (given result) self.new }
    {
        prepare(alloc, &mut self.parts)
    }

    /// The prepared ticket waits until the list is met at this position. `Unknown` where it is not prepared. Takes no
    /// memory.
    pub fn wait(&mut self, ticket: u64, end: Lsn, mode: Mode) -> Result<(), SyncFault>
        ensures { SyncStep self.old (Wait ticket end mode) (done result) self.new }
    {
        if begin(&mut self.parts, ticket, Some((end.0, mode))) {
            Ok(())
        } else {
            Err(SyncFault::Unknown)
        }
    }

    /// The prepared ticket's wait is cancelled as it begins, whatever the list. `Unknown` where it is not prepared.
    /// Takes no memory.
    pub fn wait_cancelled(&mut self, ticket: u64) -> Result<(), SyncFault>
        ensures { SyncStep self.old (WaitCancelled ticket) (done result) self.new }
    {
        if begin(&mut self.parts, ticket, None) {
            Ok(())
        } else {
            Err(SyncFault::Unknown)
        }
    }

    /// What has become of the ticket. A ticket that was released or cancelled is answered once. Takes no memory.
    pub fn look(&mut self, ticket: u64) -> Look
        ensures { SyncStep self.old (ToLook ticket) (Looked result) self.new }
    {
        look(&mut self.parts, ticket)
    }

    /// Cancels the ticket's wait, or hands it back where it does not wait yet. One that is released stays so.
    /// `Unknown` where the ticket is not there. Takes no memory.
    pub fn cancel(&mut self, ticket: u64) -> Result<(), SyncFault>
        ensures { SyncStep self.old (Cancel ticket) (done result) self.new }
    {
        if cancel(&mut self.parts, ticket) {
            Ok(())
        } else {
            Err(SyncFault::Unknown)
        }
    }

    /// Cancels all waits. Takes no memory.
    pub fn cancel_all(&mut self)
        ensures { SyncStep self.old CancelAll Done self.new }
    {
        cancel_all(&mut self.parts);
    }

    /// Whether the ticket is prepared and does not wait yet.
    pub fn is_prepared(&self, ticket: u64) -> bool
        ensures { IsTrue result ↔ (fate_of self.now.tickets ticket ≡ Some Prepared) }
    {
        is_prepared(&self.parts, ticket)
    }
}
