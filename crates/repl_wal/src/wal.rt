//! A log, and what it tells of itself.
ghost use Rattle.std.specs.Prelude.{◌≡◌, ◌↔◌, false, true, IsTrue, None};
ghost use Rattle.repl_store.specs.Head.{status_of};
ghost use Rattle.repl_control.specs.declared.control.Role.TheVariants as Role;
ghost use Rattle.std.specs.Borrow.{Lends, sem};
ghost use Rattle.repl_wal.specs.contracts.wal.Wal.{the_row};
ghost use Rattle.repl_wal.specs.Holding.{Remembers, store_of, with_disk};
ghost use Rattle.repl_wal.specs.State.{IsLog, LogState, breaking, identity_in, path_of, status_of_log};

use repl_control::Role;
use repl_disk::Disk;
use repl_lsn::{History, Lsn, Tli};
use repl_record::Walker;
use repl_store::{Store, StoreStatus};
use std::marker::Model;

/// The log ends at most here.
pub const LOG_LIMIT: u64 = 1 << 62;

const _: () = prove!(LOG_LIMIT == 4_611_686_018_427_387_904);

/// A node's write-ahead log on a disk.
#[derive(Drop)]
pub struct Wal<D: Disk> {
    pub(crate) store: Store<D>,
    /// It has gone through the log from the whole end on.
    pub(crate) walker: Walker,
    /// A call of the disk failed, and this was the log before it.
    pub(crate) stopped: Option<StoreStatus>,
}

impl<D: Disk> Model for Wal<D> {
    ghost use Rattle.repl_wal.specs.Holding.{HeldLog, Remembers, held_of, memory_of};
    ghost use Rattle.repl_wal.specs.State.{LogState};

    ghost Value = { HeldLog D };

    ghost view = { λ w. held_of w.store w.walker w.stopped };

    ghost invariant = { λ w. (n : LogState) × Remembers (memory_of w.store w.walker w.stopped) n };
}

/// Whether the node is a standby.
pub(crate) fn is_standby(role: Role) -> bool
    ensures { IsTrue result ↔ (role ≡ Role.Standby) }
{
    matches!(role, Role::Standby)
}

/// What a node is, and how far its log stands.
#[derive(Clone, Copy, Debug, PartialEq, Eq)]
pub struct Identity {
    pub sysid: u64,
    pub role: Role,
    pub tli: Tli,
    /// Where the bytes begin that are kept.
    pub floor: Lsn,
    /// Where the last whole record ends of those that are flushed.
    pub whole: Lsn,
    pub flushed: Lsn,
    pub written: Lsn,
}

/// What peers are told of it.
fn identity_in(status: &StoreStatus) -> Identity
    ensures { result ≡ identity_in status.now }
{
    Identity {
        sysid: status.sysid,
        role: status.role,
        tli: status.tli,
        floor: status.floor,
        whole: status.whole,
        flushed: status.flushed,
        written: status.written,
    }
}

impl<D: Disk> Wal<D> {
    /// What the node is, and how far its log stands. After a failure of the disk that is the state from before the call that
    /// failed.
    pub fn identify(&self) -> Identity
        ensures told { (n : LogState) → Remembers self.now.log n → result ≡ identity_in (status_of_log n) }
        // While no call of the disk failed, that is what the store tells, and the log is right.
        ensures head { self.now.log.stopped ≡ None → result ≡ identity_in (status_of self.now.log.head) }
        ensures right { (n : LogState) → Remembers self.now.log n → n.broken ≡ false → IsLog n }
        // There is always such a log.
        ensures some { (n : LogState) × Remembers self.now.log n }
    {
        match self.stopped {
            Some(before) => identity_in(&before),
            None => identity_in(&self.store.status()),
        }
    }

    /// The path of the log.
    pub fn path(&self) -> &History
        ensures { (n : LogState) → Remembers self.now.log n → result.now ≡ path_of n }
    {
        self.store.path()
    }

    /// Whether a call of the disk failed since the mount.
    pub fn is_broken(&self) -> bool
        ensures { (n : LogState) → Remembers self.now.log n → (IsTrue result ↔ (n.broken ≡ true)) }
    {
        self.stopped.is_some()
    }

    /// Remembers that the disk failed in a call that was not the log's own. From here on the log is broken.
    pub fn break_off(&mut self)
        ensures broken { (n : LogState) → Remembers self.old.log n → n.broken ≡ false → Remembers self.new.log (breaking n) }
        ensures store { store_of self.new ≡ store_of self.old }
    {
        if self.stopped.is_none() {
            self.stopped = Some(self.store.status());
        }
    }

    /// The disk, to be looked at.
    pub fn disk(&self) -> &D
        ensures { result.now ≡ self.now.disk }
    {
        self.store.disk()
    }

    /// The disk. What the borrower leaves is the log's disk; the rest of the log stays. A log goes on with its files where, at
    /// every moment, all names but `slots` and `slots.tmp` stay as they were: `others_apart` of `repl_store` is that law.
    pub fn disk_mut(&mut self) -> &mut D
        ensures value { result.now ≡ self.old.disk }
        ensures* writes_back { sem 𝓛 (Lends (the_row D.row D.Disk) D.row self.entry result (with_disk self.old)) }
    {
        self.store.disk_mut()
    }

    /// The disk, as the log leaves it.
    pub fn into_disk(self) -> D
        ensures { result ≡ self.disk }
    {
        self.store.into_disk()
    }
}
