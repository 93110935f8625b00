//! A node, and what it tells of itself.
ghost use Rattle.std.specs.Prelude.{◌≡◌, ◌↔◌, false, true, None, IsTrue};
ghost use Rattle.repl_slots.specs.Slot.{AreSlots};
ghost use Rattle.repl_store.specs.Head.{status_of};
ghost use Rattle.repl_wal.specs.State.{IsLog, identity_in, path_of, status_of_log};
ghost use Rattle.repl_node.specs.Holding.{Remembers, disk_of};
ghost use Rattle.repl_node.specs.State.{NodeState};

use repl_disk::Disk;
use repl_lsn::History;
use repl_slots::{Slot, Slots};
use repl_wal::{Identity, Wal};
use std::marker::Model;

/// A node on a disk: its log, and its slots.
#[derive(Drop)]
pub struct Node<D: Disk> {
    pub(crate) wal: Wal<D>,
    pub(crate) slots: Slots,
}

impl<D: Disk> Model for Node<D> {
    ghost use Rattle.repl_node.specs.Holding.{HeldNode};

    ghost Value = { HeldNode D };

    ghost view = { λ n. record { wal = n.wal; slots = n.slots } };
}

impl<D: Disk> Node<D> {
    /// What the node is, and how far its log stands. After a failure of the disk that is the state from before the call that
    /// failed.
    pub fn identify(&self) -> Identity
        ensures told { (n : NodeState) → Remembers self.now n → result ≡ identity_in (status_of_log n.log) }
        // While no call of the disk failed, that is what the store tells, and the log is right.
        ensures head { self.now.wal.log.stopped ≡ None → result ≡ identity_in (status_of self.now.wal.log.head) }
        ensures right { (n : NodeState) → Remembers self.now n → n.log.broken ≡ false → IsLog n.log }
    {
        self.wal.identify()
    }

    /// Whether a call of the disk failed since the mount.
    pub fn is_broken(&self) -> bool
        ensures { (n : NodeState) → Remembers self.now n → (IsTrue result ↔ (n.log.broken ≡ true)) }
    {
        self.wal.is_broken()
    }

    /// The path of the log.
    pub fn path(&self) -> &History
        ensures { (n : NodeState) → Remembers self.now n → result.now ≡ path_of n.log }
    {
        self.wal.path()
    }

    /// The slots, in the order of creation.
    pub fn slots(&self) -> &[Slot]
        ensures value { (n : NodeState) → Remembers self.now n → result.now ≡ n.slots }
        ensures slots { AreSlots self.now.slots.slots }
    {
        self.slots.list()
    }

    /// The disk, as the node leaves it.
    pub fn into_disk(self) -> D
        ensures { result ≡ disk_of self }
    {
        self.wal.into_disk()
    }
}
