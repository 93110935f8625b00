//! Events of commits that wait for standbys.
ghost use Rattle.std.specs.Prelude.{◌≡◌, ◌⊎◌, true, false, IsTrue, Ok, Err, OnOk, OnErr};
ghost use Rattle.repl_control.specs.declared.control.Role.TheVariants as Role;
ghost use Rattle.repl_hub.specs.Holding.{Holds, SameDisk, Steps, disk_of};
ghost use Rattle.repl_hub.specs.State.{HubView};
ghost use Rattle.repl_hub.specs.Waits.{IsCancel, IsLook, IsNames, IsPrepare, IsSetNames, IsStop, IsWait};
ghost use Rattle.repl_hub.specs.declared.reply.WaitFault.TheVariants as WaitFault;
ghost use Rattle.repl_node.specs.Steps.{SameLeft};

use crate::hub::HubState;
use crate::reply::WaitFault;
use repl_control::Role;
use repl_disk::Disk;
use repl_lsn::Lsn;
use repl_names::{Mode, StandbyList};
use repl_node::Identity;
use repl_sync::{Look, SyncFault};
use std::alloc::AllocError;

impl<D: Disk> HubState<D> {
    /// A ticket for a commit. Takes memory for it and for its certificate.
    pub(crate) fn prepare(&mut self) -> Result<u64, SyncFault>
        ensures steps { Steps D.state self.old self.new (λ h. IsPrepare h result) (λ h. SameLeft h.node) }
        ensures disk { SameDisk self.old self.new }
    {
        self.sync.prepare(self.alloc)
    }

    /// The ticket's commit waits for standbys. On a standby, and where a `Stop` came, the wait is cancelled as it begins.
    pub(crate) fn wait(&mut self, ticket: u64, end: Lsn, mode: Mode) -> Result<(), WaitFault>
        ensures steps { Steps D.state self.old self.new (λ h. IsWait h ticket end mode result) (λ h. SameLeft h.node) }
        ensures disk { SameDisk self.old self.new }
    {
        if !self.sync.is_prepared(ticket) {
            return Err(WaitFault::Unknown);
        }
        let identity = self.node.identify();
        if waits_for_none(&identity, self.stopped) {
            return begun(self.sync.wait_cancelled(ticket));
        }
        if end.0 > identity.flushed.0 {
            return Err(WaitFault::NotFlushed {
                flushed: identity.flushed,
            });
        }
        begun(self.sync.wait(ticket, end, mode))
    }

    /// What has become of the ticket's commit.
    pub(crate) fn look(&mut self, ticket: u64) -> Look
        ensures steps { Steps D.state self.old self.new (λ h. IsLook h ticket result) (λ h. SameLeft h.node) }
        ensures disk { SameDisk self.old self.new }
    {
        self.sync.look(ticket)
    }

    /// The ticket's commit waits no more.
    pub(crate) fn cancel(&mut self, ticket: u64) -> Result<(), SyncFault>
        ensures steps { Steps D.state self.old self.new (λ h. IsCancel h ticket result) (λ h. SameLeft h.node) }
        ensures disk { SameDisk self.old self.new }
    {
        self.sync.cancel(ticket)
    }

    /// This list is in force from here on. Takes memory for it, and for certificates.
    pub(crate) fn set_names(&mut self, list: &StandbyList) -> Result<(), AllocError>
        ensures steps { Steps D.state self.old self.new (λ h. IsSetNames h list.now result) (λ h. SameLeft h.node) }
        ensures disk { SameDisk self.old self.new }
    {
        self.sync.set_names(self.alloc, list)
    }

    /// The list in force. Takes memory for the copy.
    pub(crate) fn names(&self) -> Result<StandbyList, AllocError>
        ensures { (h : HubView) → Holds (D.state (disk_of self.now)) self.now h → IsNames h result }
    {
        self.sync.names().copy(self.alloc)
    }

    /// No session begins from here on, and no commit waits.
    pub(crate) fn stop(&mut self)
        ensures steps { Steps D.state self.old self.new IsStop (λ h. SameLeft h.node) }
        ensures disk { SameDisk self.old self.new }
    {
        self.sync.cancel_all();
        self.stopped = true;
    }
}

/// Whether nobody waits on this node.
fn waits_for_none(identity: &Identity, stopped: bool) -> bool
    ensures none { IsTrue result → (identity.now.role ≡ Role.Standby) ⊎ (stopped ≡ true) }
    ensures some { (IsTrue result → ⊥) → (identity.now.role ≡ Role.Primary) × (stopped ≡ false) }
{
    match identity.role {
        Role::Standby => true,
        Role::Primary => stopped,
    }
}

/// A wait that has begun. The ticket was prepared, so it did.
fn begun(answer: Result<(), SyncFault>) -> Result<(), WaitFault>
    ensures ok { OnOk answer (result ≡ Ok tt) }
    ensures refused { OnErr answer (result ≡ Err WaitFault.Unknown) }
{
    match answer {
        Ok(()) => Ok(()),
        Err(_) => Err(WaitFault::Unknown),
    }
}
