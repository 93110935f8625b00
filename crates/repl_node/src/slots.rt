//! The calls on the slots: they change the list in memory, and `slot_save` makes it certain.
ghost use Rattle.std.specs.Prelude.{◌≡◌, ◌≢◌, ◌++◌, ◌∷◌, [], map, false, Err, None};
ghost use Rattle.repl_slots.specs.Slot.{CanCreate, CanUse, acquired, confirmed, ended, made, released, without};
ghost use Rattle.repl_slots.specs.declared.fault.SlotFault.TheVariants as SlotFault;
ghost use Rattle.repl_wal.specs.Holding.{Remembers as RemembersLog};
ghost use Rattle.repl_wal.specs.State.{LogState, breaking};
ghost use Rattle.repl_node.specs.Holding.{HasCause, SameDisk, Steps, disk_of};
ghost use Rattle.repl_node.specs.State.{with_slots};
ghost use Rattle.repl_node.specs.Steps.{OfSlots, SameLeft, SaveLeaves, Saves};

use crate::node::Node;
use repl_disk::Disk;
use repl_lsn::Lsn;
use repl_slots::SlotFault;
use repl_wal::Wal;
use std::alloc::Global;

impl<D: Disk> Node<D> {
    /// Makes a slot, which only this session may use and which goes with it where it is temporary. Refuses a name that is
    /// none of a slot (`BadName`), or that a slot has (`Duplicate`), and a slot more than `SLOT_LIMIT` (`Full`). Takes
    /// memory for the name.
    pub fn slot_create(
        &mut self,
        alloc: Global,
        name: &[u8],
        temporary: bool,
        session: u64,
        restart: Option<Lsn>,
    ) -> Result<(), SlotFault>
        ensures answer { CanCreate self.old.slots.slots name.now result }
        ensures steps { Steps D.state self.old self.new (λ n. OfSlots n (n.slots ++ made name.now temporary session restart ∷ []) result) SameLeft }
        ensures rest { self.new.wal ≡ self.old.wal }
    {
        self.slots.create(alloc, name, temporary, session, restart)
    }

    /// Drops the slot of this name. Refuses a name that no slot has (`NoSlot`), and a slot that has an owner or that is a
    /// temporary one of another session (`InUse`).
    pub fn slot_drop(&mut self, name: &[u8], session: u64) -> Result<(), SlotFault>
        ensures answer { CanUse self.old.slots.slots name.now session result }
        ensures steps { Steps D.state self.old self.new (λ n. OfSlots n (without name.now n.slots) result) SameLeft }
        ensures rest { self.new.wal ≡ self.old.wal }
    {
        self.slots.drop_slot(name, session)
    }

    /// Makes the session the owner of the slot of this name. Refuses what `slot_drop` does.
    pub fn slot_acquire(&mut self, name: &[u8], session: u64) -> Result<(), SlotFault>
        ensures answer { CanUse self.old.slots.slots name.now session result }
        ensures steps { Steps D.state self.old self.new (λ n. OfSlots n (map (acquired name.now session) n.slots) result) SameLeft }
        ensures rest { self.new.wal ≡ self.old.wal }
    {
        self.slots.acquire(name, session)
    }

    /// Takes from the session each slot that it owns.
    pub fn slot_release(&mut self, session: u64)
        ensures steps { Steps D.state self.old self.new (λ n m. m ≡ with_slots n (map (released session) n.slots)) SameLeft }
        ensures rest { self.new.wal ≡ self.old.wal }
    {
        self.slots.release(session);
    }

    /// Raises the restart position of each slot that the session owns to this one, which a slot without one gets. No
    /// restart position falls, and what was saved stays.
    pub fn slot_confirm(&mut self, session: u64, at: Lsn)
        ensures steps { Steps D.state self.old self.new (λ n m. m ≡ with_slots n (map (confirmed session at) n.slots)) SameLeft }
        ensures rest { self.new.wal ≡ self.old.wal }
    {
        self.slots.confirm(session, at);
    }

    /// Does what a session's end does to slots: takes from it each that it owns, and drops those that it made for itself.
    pub fn slot_end_session(&mut self, session: u64)
        ensures steps { Steps D.state self.old self.new (λ n m. m ≡ with_slots n (ended session n.slots)) SameLeft }
        ensures rest { self.new.wal ≡ self.old.wal }
    {
        self.slots.end_session(session);
    }

    /// Makes the slots certain but for temporary ones, and takes their restart positions as saved. A crash in it leaves the
    /// slots that were saved, or these. Takes memory for the file's bytes; where there is none nothing changes. After a failure
    /// of the disk the node is broken.
    pub fn slot_save(&mut self, alloc: Global) -> Result<(), SlotFault>
        ensures steps { Steps D.state self.old self.new (λ n. Saves n result) SaveLeaves }
        ensures failed { HasCause D.state self.old self.new (result ≡ Err SlotFault.DiskFault) }
        ensures idle { result ≡ Err SlotFault.Broken → SameDisk self.old self.new }
        ensures keeps { D.keeps (disk_of self.old) (disk_of self.new) }
    {
        if self.wal.is_broken() {
            return Err(SlotFault::Broken);
        }
        match self.slots.save(alloc, self.wal.disk_mut()) {
            Ok(()) => Ok(()),
            Err(fault) => Err(stop(&mut self.wal, fault)),
        }
    }
}

/// Breaks the log off where the disk failed, and gives the fault on.
fn stop<D: Disk>(wal: &mut Wal<D>, fault: SlotFault) -> SlotFault
    ensures told { result ≡ fault }
    ensures stopped { fault ≡ SlotFault.DiskFault → (n : LogState) → RemembersLog wal.old.log n → n.broken ≡ false → RemembersLog wal.new.log (breaking n) }
    ensures others { fault ≢ SlotFault.DiskFault → wal.new ≡ wal.old }
    ensures disk { wal.new.disk ≡ wal.old.disk }
{
    if fault == SlotFault::DiskFault {
        wal.break_off();
    }
    fault
}
