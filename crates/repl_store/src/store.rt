//! A store over a disk.
ghost use Rattle.std.specs.Prelude.{◌≡◌};
ghost use Rattle.std.specs.Borrow.{Lends, sem};
ghost use Rattle.repl_store.specs.contracts.store.Store.{the_row};
ghost use Rattle.repl_store.specs.Head.{IsHead, status_of, with_disk};

use crate::head::Head;
use repl_control::Role;
use repl_disk::Disk;
use repl_lsn::{History, Lsn, Tli};
use repl_page::Ident;
use std::marker::Model;

/// The log of one node on a disk, with the path that it follows.
#[derive(Drop)]
pub struct Store<D: Disk> {
    pub(crate) disk: D,
    pub(crate) head: Head,
    /// A call of the disk failed since the store was mounted.
    pub(crate) broken: bool,
}

impl<D: Disk> Model for Store<D> {
    ghost use Rattle.repl_store.specs.Head.{Held};

    ghost Value = { Held D };

    ghost view = { λ s. record { disk = s.disk; head = s.head; broken = s.broken } };
}

/// What a store is, and how far it stands.
#[derive(Clone, Copy, Debug, PartialEq, Eq)]
pub struct StoreStatus {
    pub sysid: u64,
    pub role: Role,
    pub tli: Tli,
    /// Where the bytes begin that are kept.
    pub floor: Lsn,
    /// Where the last whole record ends.
    pub whole: Lsn,
    /// Where the bytes end that are certain on the disk.
    pub flushed: Lsn,
    /// Where those end that were written.
    pub written: Lsn,
    pub ident: Ident,
    /// Where the last whole record starts; 0 without one.
    pub prev: Lsn,
}

impl<D: Disk> Store<D> {
    /// What the store is, and how far it stands. After a failure of the disk that is the state from before the call that
    /// failed.
    pub fn status(&self) -> StoreStatus
        ensures told { result ≡ status_of self.now.head }
        ensures right { IsHead self.now.head }
    {
        let control = self.head.control;
        StoreStatus {
            sysid: control.sysid,
            role: control.role,
            tli: control.tli,
            floor: control.floor,
            whole: control.whole,
            flushed: control.flushed,
            written: self.head.written,
            ident: Ident {
                sysid: control.sysid,
                magic: control.magic,
                size: self.head.size,
            },
            prev: control.prev,
        }
    }

    /// The path that the store follows.
    pub fn path(&self) -> &History
        ensures { result.now ≡ self.now.head.path }
    {
        &self.head.history
    }

    /// The disk. What the borrower leaves is the store's disk; the rest of the store stays. A store goes on with its files
    /// where, at every moment, all names but `slots` and `slots.tmp` stay as they were: `others_apart` is that law.
    pub fn disk_mut(&mut self) -> &mut D
        ensures value { result.now ≡ self.old.disk }
        ensures* writes_back { sem 𝓛 (Lends (the_row D.row D.Disk) D.row self.entry result (with_disk self.old)) }
    {
        &mut self.disk
    }

    /// The disk, to be looked at.
    pub fn disk(&self) -> &D
        ensures { result.now ≡ self.now.disk }
    {
        &self.disk
    }

    /// The disk, as the store leaves it.
    pub fn into_disk(self) -> D
        ensures { result ≡ self.disk }
    {
        self.disk
    }
}
