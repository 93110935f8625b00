//! Events of sessions.
ghost use Rattle.std.specs.Prelude.{◌≡◌, ◌<◌, ◌≤◌, ◌⊎◌, IsTrue};
ghost use Rattle.repl_hub.specs.Holding.{Goes, Holds, SameDisk, Steps, disk_of};
ghost use Rattle.repl_hub.specs.Sessions.{HasRoom, IsConnect, IsDisconnect, IsFeedback, IsReport, IsStopStreaming, IsStreaming, KnowsLink};
ghost use Rattle.repl_hub.specs.State.{HubView, count_kind, is_linked, limit_of, unlinked};
ghost use Rattle.repl_hub.specs.declared.link.TheConstants.{LAST_SESSION};
ghost use Rattle.repl_hub.specs.Step.{status_of_hub};
ghost use Rattle.repl_node.specs.Steps.{SameLeft};

use crate::hub::HubState;
use crate::link::{LAST_SESSION, Link, ORDINARY_LIMIT, REPLICATION_LIMIT};
use crate::reply::{ConnectFault, HubStatus};
use crate::slots::lesser;
use repl_disk::Disk;
use repl_lsn::{Lsn, Tli};
use repl_sync::{FeedbackValue, SyncFault};
use repl_text::Text;

impl<D: Disk> HubState<D> {
    /// What the node is, how many sessions stream, and whether a `Stop` came.
    pub(crate) fn status(&self) -> HubStatus
        ensures { (h : HubView) → Holds (D.state (disk_of self.now)) self.now h → result ≡ status_of_hub h }
    {
        HubStatus {
            identity: self.node.identify(),
            streaming: self.sync.streaming_sessions(),
            stopped: self.stopped,
        }
    }

    /// A session begins, and gets the number after the last one. Takes memory for its name, and for the certificates in which
    /// it may stand.
    pub(crate) fn connect(&mut self, name: &Text, replication: bool) -> Result<u64, ConnectFault>
        ensures steps { Steps D.state self.old self.new (λ h. IsConnect h name.now replication result) (λ h. SameLeft h.node) }
        ensures disk { SameDisk self.old self.new }
    {
        if self.stopped {
            return Err(ConnectFault::Stopped);
        }
        let there = count_kind(&self.links, replication);
        if is_full(there, self.last, replication) {
            return Err(ConnectFault::TooMany { there });
        }
        self.admit(name, replication)
    }

    /// A session begins, for which there is room.
    fn admit(&mut self, name: &Text, replication: bool) -> Result<u64, ConnectFault>
        requires { self.old.last < LAST_SESSION }
        ensures steps { (h : HubView) → Holds (D.state (disk_of self.old)) self.old h → HasRoom h replication →
            Goes (D.state (disk_of self.old)) (D.state (disk_of self.new)) self.new h (IsConnect h name.now replication result) (SameLeft h.node) }
        ensures disk { SameDisk self.old self.new }
    {
        let number = self.last + 1;
        match self.links.reserve(1) {
            Ok(()) => {}
            Err(_) => return Err(ConnectFault::Memory),
        }
        match self.sync.connect(self.alloc, number, name.as_slice()) {
            Ok(()) => {
                self.links.push_reserved(Link {
                    number,
                    replication,
                });
                self.last = number;
                Ok(number)
            }
            Err(_) => Err(ConnectFault::Memory),
        }
    }

    /// The session begins to stream a timeline. Where that is an older one, it counts for no commit.
    pub(crate) fn streaming(&mut self, session: u64, tli: Tli) -> Result<(), SyncFault>
        ensures steps { Steps D.state self.old self.new (λ h. IsStreaming h session tli result) (λ h. SameLeft h.node) }
        ensures disk { SameDisk self.old self.new }
    {
        if self.node.identify().tli == tli {
            self.sync.streaming(session)
        } else {
            knows(&self.links, session)
        }
    }

    /// The session streams no more.
    pub(crate) fn stop_streaming(&mut self, session: u64) -> Result<(), SyncFault>
        ensures steps { Steps D.state self.old self.new (λ h. IsStopStreaming h session result) (λ h. SameLeft h.node) }
        ensures disk { SameDisk self.old self.new }
    {
        self.sync.stop_streaming(session)
    }

    /// The session's standby has written, flushed and applied so far, which counts up to the flushed end.
    pub(crate) fn report(
        &mut self,
        session: u64,
        written: Lsn,
        flushed: Lsn,
        applied: Lsn,
    ) -> Result<(), SyncFault>
        ensures steps { Steps D.state self.old self.new (λ h. IsReport h session written flushed applied result) (λ h. SameLeft h.node) }
        ensures disk { SameDisk self.old self.new }
    {
        let end = self.node.identify().flushed;
        self.sync.report(
            session,
            lesser(written, end),
            lesser(flushed, end),
            lesser(applied, end),
        )
    }

    /// The session's standby tells its oldest transactions.
    pub(crate) fn feedback(&mut self, session: u64, value: FeedbackValue) -> Result<(), SyncFault>
        ensures steps { Steps D.state self.old self.new (λ h. IsFeedback h session value result) (λ h. SameLeft h.node) }
        ensures disk { SameDisk self.old self.new }
    {
        self.sync.feedback(session, value)
    }

    /// The session ends: its slots are nobody's, and its temporary ones go.
    pub(crate) fn disconnect(&mut self, session: u64) -> Result<(), SyncFault>
        ensures steps { Steps D.state self.old self.new (λ h. IsDisconnect h session result) (λ h. SameLeft h.node) }
        ensures disk { SameDisk self.old self.new }
    {
        match self.sync.disconnect(session) {
            Ok(()) => {
                self.node.slot_end_session(session);
                unlink(&mut self.links, session);
                Ok(())
            }
            Err(fault) => Err(fault),
        }
    }
}

/// How many connections of this kind there are.
fn count_kind(links: &[Link], replication: bool) -> u64
    ensures { result ≡ count_kind replication links.now }
{
    links
        .iter()
        .filter(|link| link.replication == replication)
        .count() as u64
}

/// How many connections of this kind there may be.
fn limit_of(replication: bool) -> u64
    ensures { result ≡ limit_of replication }
{
    if replication {
        REPLICATION_LIMIT
    } else {
        ORDINARY_LIMIT
    }
}

/// Whether no other connection of this kind may be, where so many are there and this is the last number of a session.
fn is_full(there: u64, last: u64, replication: bool) -> bool
    ensures full { IsTrue result → (limit_of replication ≤ there) ⊎ (LAST_SESSION ≤ last) }
    ensures room { (IsTrue result → ⊥) → (there < limit_of replication) × (last < LAST_SESSION) }
{
    there >= limit_of(replication) || last >= LAST_SESSION
}

/// Whether a connection has this number.
fn is_linked(links: &[Link], number: u64) -> bool
    ensures { result ≡ is_linked number links.now }
{
    links.iter().any(|link| link.number == number)
}

/// What is answered for a connection of this number.
fn knows(links: &[Link], number: u64) -> Result<(), SyncFault>
    ensures { KnowsLink links.now number result }
{
    if is_linked(links, number) {
        Ok(())
    } else {
        Err(SyncFault::Unknown)
    }
}

/// The connection with this number goes.
fn unlink(links: &mut Vec<Link>, number: u64)
    ensures { links.new.items ≡ unlinked number links.old.items }
{
    links.retain(|link| link.number != number);
}
