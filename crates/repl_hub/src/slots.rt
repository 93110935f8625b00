//! Events that are calls of the node on its slots.
ghost use Rattle.std.specs.Prelude.{◌≡◌, None, Some, Err, MatchOption, min, if◌then◌else◌};
ghost use Rattle.repl_hub.specs.Holding.{HasCause, Holds, SameDisk, Steps, disk_of};
ghost use Rattle.repl_hub.specs.Slots.{IsSlotAcquire, IsSlotConfirm, IsSlotCreate, IsSlotDrop, IsSlotRelease, IsSlotSave, place_of, slot_place};
ghost use Rattle.repl_hub.specs.State.{HubView};
ghost use Rattle.repl_node.specs.Steps.{SameLeft, SaveLeaves};
ghost use Rattle.repl_slots.specs.Slot.{slot_named};
ghost use Rattle.repl_slots.specs.declared.fault.SlotFault.TheVariants as SlotFault;

use crate::hub::HubState;
use crate::reply::SlotPlace;
use repl_disk::Disk;
use repl_lsn::{History, Lsn};
use repl_node::{Slot, SlotFault};
use repl_text::Text;

impl<D: Disk> HubState<D> {
    /// A slot is made, which begins at the flushed end where that is reserved. Takes memory for its name.
    pub(crate) fn slot_create(
        &mut self,
        session: u64,
        name: &Text,
        temporary: bool,
        reserve: bool,
    ) -> Result<(), SlotFault>
        ensures steps { Steps D.state self.old self.new (λ h. IsSlotCreate h session name.now temporary reserve result) (λ h. SameLeft h.node) }
        ensures disk { SameDisk self.old self.new }
    {
        let restart = reserved(reserve, self.node.identify().flushed);
        self.node
            .slot_create(self.alloc, name.as_slice(), temporary, session, restart)
    }

    /// The slot goes.
    pub(crate) fn slot_drop(&mut self, session: u64, name: &Text) -> Result<(), SlotFault>
        ensures steps { Steps D.state self.old self.new (λ h. IsSlotDrop h session name.now result) (λ h. SameLeft h.node) }
        ensures disk { SameDisk self.old self.new }
    {
        self.node.slot_drop(name.as_slice(), session)
    }

    /// Where the slot with this name begins.
    pub(crate) fn slot_read(&self, name: &Text) -> SlotPlace
        ensures { (h : HubView) → Holds (D.state (disk_of self.now)) self.now h → result ≡ slot_place h name.now }
    {
        match find(self.node.slots(), name.as_slice()) {
            None => SlotPlace::NoSlot,
            Some(slot) => place_of(self.node.path(), slot.restart),
        }
    }

    /// The session owns the slot.
    pub(crate) fn slot_acquire(&mut self, session: u64, name: &Text) -> Result<(), SlotFault>
        ensures steps { Steps D.state self.old self.new (λ h. IsSlotAcquire h session name.now result) (λ h. SameLeft h.node) }
        ensures disk { SameDisk self.old self.new }
    {
        self.node.slot_acquire(name.as_slice(), session)
    }

    /// The session owns no slot.
    pub(crate) fn slot_release(&mut self, session: u64)
        ensures steps { Steps D.state self.old self.new (λ h. IsSlotRelease h session) (λ h. SameLeft h.node) }
        ensures disk { SameDisk self.old self.new }
    {
        self.node.slot_release(session);
    }

    /// The session's slots hold nothing back before a position, which counts up to the flushed end.
    pub(crate) fn slot_confirm(&mut self, session: u64, at: Lsn)
        ensures steps { Steps D.state self.old self.new (λ h. IsSlotConfirm h session at) (λ h. SameLeft h.node) }
        ensures disk { SameDisk self.old self.new }
    {
        let flushed = self.node.identify().flushed;
        self.node.slot_confirm(session, lesser(at, flushed));
    }

    /// The slots are made certain. Takes memory for their file.
    pub(crate) fn slot_save(&mut self) -> Result<(), SlotFault>
        ensures steps { Steps D.state self.old self.new (λ h. IsSlotSave h result) (λ h. SaveLeaves h.node) }
        ensures failed { HasCause D.state self.old self.new (result ≡ Err SlotFault.DiskFault) }
        ensures keeps { D.keeps (disk_of self.old) (disk_of self.new) }
    {
        self.node.slot_save(self.alloc)
    }
}

/// Where a slot begins that is made now, with this flushed end.
fn reserved(reserve: bool, flushed: Lsn) -> Option<Lsn>
    ensures { result ≡ (if reserve then Some flushed else None) }
{
    if reserve { Some(flushed) } else { None }
}

/// The lesser of both positions.
pub(crate) fn lesser(at: Lsn, end: Lsn) -> Lsn
    ensures { result ≡ min at end }
{
    Lsn(at.0.min(end.0))
}

/// The slot with this name.
fn find<'a>(slots: &'a [Slot], name: &[u8]) -> Option<&'a Slot>
    ensures { MatchOption result (slot_named name.now slots.now ≡ None) (λ slot. slot_named name.now slots.now ≡ Some slot.now) }
{
    slots.iter().find(|slot| slot.name.as_slice() == name)
}

/// Where a slot begins, on this path.
fn place_of(path: &History, restart: Option<Lsn>) -> SlotPlace
    ensures { result ≡ place_of path.now restart }
{
    match restart {
        None => SlotPlace::NoPosition,
        Some(restart) => SlotPlace::At {
            restart,
            tli: path.timeline_at(restart),
        },
    }
}
