//! The list of slots.
ghost use Rattle.std.specs.Prelude.{◌≡◌, ◌++◌, ◌∷◌, [], map, false, OnOk, OnErr};
ghost use Rattle.repl_slots.specs.Slot.{AreSlots, CanCreate, CanUse, IsFloor, acquired, confirmed, ended, having, made, released, without};

use crate::each::{acquire_named, confirm_all, drop_named, drop_temporary, release_all};
use crate::fault::SlotFault;
use crate::find::{find_slot, floor_of, usable};
use crate::slot::{SLOT_LIMIT, Slot};
use repl_lsn::Lsn;
use repl_text::{Text, is_slot_name};
use std::alloc::Global;
use std::marker::Model;

/// Replication slots in the order of creation, at most `SLOT_LIMIT`.
///
/// Sessions are numbered from 1; 0 stands for none. A refused call changes nothing.
#[derive(Debug, Drop)]
pub struct Slots {
    pub(crate) list: Vec<Slot>,
    /// A disk fault came since they were mounted.
    pub(crate) broken: bool,
}

impl Model for Slots {
    ghost use Rattle.repl_slots.specs.Slot.{AreSlots, SlotList};

    ghost Value = { SlotList };

    ghost view = { λ s. record { slots = s.list.items; broken = s.broken } };

    ghost invariant = { λ s. AreSlots s.list.items };
}

impl Slots {
    /// No slots. Takes no memory.
    pub fn new(alloc: Global) -> Slots
        ensures { result ≡ record { slots = []; broken = false } }
    {
        Slots {
            list: Vec::new(alloc),
            broken: false,
        }
    }

    /// The slots, in the order of creation.
    pub fn list(&self) -> &[Slot]
        ensures value { result.now ≡ self.now.slots }
        ensures slots { AreSlots self.now.slots }
    {
        &self.list
    }

    /// Makes a slot, which only this session may use and which goes with it where it is temporary. Refuses a name that is
    /// none of a slot (`BadName`), or that a slot has (`Duplicate`), and a slot more than `SLOT_LIMIT` (`Full`). Takes
    /// memory for the name.
    pub fn create(
        &mut self,
        alloc: Global,
        name: &[u8],
        temporary: bool,
        session: u64,
        restart: Option<Lsn>,
    ) -> Result<(), SlotFault>
        ensures answer { CanCreate self.old.slots name.now result }
        ensures done { OnOk result (self.new ≡ having self.old (self.old.slots ++ made name.now temporary session restart ∷ [])) }
        ensures refused { OnErr result (self.new ≡ self.old) }
    {
        if !is_slot_name(name) {
            return Err(SlotFault::BadName);
        }
        if find_slot(&self.list, name).is_some() {
            return Err(SlotFault::Duplicate);
        }
        if self.list.len() >= SLOT_LIMIT {
            return Err(SlotFault::Full {
                limit: SLOT_LIMIT as u64,
            });
        }
        self.list.reserve(1)?;
        let slot = Slot {
            name: Text::copied(alloc, name)?,
            temporary: temporary.then_some(session),
            owner: None,
            restart,
            saved: None,
        };
        self.list.push_reserved(slot);
        Ok(())
    }

    /// Drops the slot of this name. Refuses a name that no slot has (`NoSlot`), and a slot that has an owner or that is a
    /// temporary one of another session (`InUse`).
    pub fn drop_slot(&mut self, name: &[u8], session: u64) -> Result<(), SlotFault>
        ensures answer { CanUse self.old.slots name.now session result }
        ensures done { OnOk result (self.new ≡ having self.old (without name.now self.old.slots)) }
        ensures refused { OnErr result (self.new ≡ self.old) }
    {
        usable(&self.list, name, session)?;
        drop_named(&mut self.list, name);
        Ok(())
    }

    /// Makes the session the owner of the slot of this name. Refuses what `drop_slot` does.
    pub fn acquire(&mut self, name: &[u8], session: u64) -> Result<(), SlotFault>
        ensures answer { CanUse self.old.slots name.now session result }
        ensures done { OnOk result (self.new ≡ having self.old (map (acquired name.now session) self.old.slots)) }
        ensures refused { OnErr result (self.new ≡ self.old) }
    {
        usable(&self.list, name, session)?;
        acquire_named(&mut self.list, name, session);
        Ok(())
    }

    /// Takes from the session each slot that it owns.
    pub fn release(&mut self, session: u64)
        ensures { self.new ≡ having self.old (map (released session) self.old.slots) }
    {
        release_all(&mut self.list, session);
    }

    /// Raises the restart position of each slot that the session owns to this one, which a slot without one gets. No
    /// restart position falls, and what was saved stays.
    pub fn confirm(&mut self, session: u64, at: Lsn)
        ensures { self.new ≡ having self.old (map (confirmed session at) self.old.slots) }
    {
        confirm_all(&mut self.list, session, at);
    }

    /// Does what a session's end does to slots: takes from it each that it owns, and drops those that it made for itself.
    pub fn end_session(&mut self, session: u64)
        ensures { self.new ≡ having self.old (ended session self.old.slots) }
    {
        drop_temporary(&mut self.list, session);
        release_all(&mut self.list, session);
    }

    /// The position from which on the log has to be kept: the least that was saved, where a temporary slot's restart
    /// position counts as saved. None where there is no such position.
    pub fn floor_for(&self) -> Option<Lsn>
        ensures { IsFloor self.now.slots result }
    {
        floor_of(&self.list)
    }
}
