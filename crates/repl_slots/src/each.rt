//! What calls do to each slot of a list.
ghost use Rattle.std.specs.Prelude.{◌≡◌, map};
ghost use Rattle.repl_slots.specs.Slot.{acquired, confirmed, released, settled, without, without_temporary};

use crate::slot::Slot;
use repl_lsn::Lsn;

/// Drops the slot of this name.
pub(crate) fn drop_named(slots: &mut Vec<Slot>, name: &[u8])
    ensures { slots.new.items ≡ without name.now slots.old.items }
{
    slots.retain(|slot| !slot.is_named(name));
}

/// Drops the slots that the session made for itself.
pub(crate) fn drop_temporary(slots: &mut Vec<Slot>, session: u64)
    ensures { slots.new.items ≡ without_temporary session slots.old.items }
{
    slots.retain(|slot| !slot.is_temporary_of(session));
}

/// Gives the slot of this name to the session.
pub(crate) fn acquire_named(slots: &mut Vec<Slot>, name: &[u8], session: u64)
    ensures { slots.new.items ≡ map (acquired name.now session) slots.old.items }
{
    for slot in slots.iter_mut() {
        slot.acquire(name, session);
    }
}

/// Takes from the session each slot that it owns.
pub(crate) fn release_all(slots: &mut Vec<Slot>, session: u64)
    ensures { slots.new.items ≡ map (released session) slots.old.items }
{
    for slot in slots.iter_mut() {
        slot.release(session);
    }
}

/// Raises the restart position of each slot that the session owns.
pub(crate) fn confirm_all(slots: &mut Vec<Slot>, session: u64, at: Lsn)
    ensures { slots.new.items ≡ map (confirmed session at) slots.old.items }
{
    for slot in slots.iter_mut() {
        slot.confirm(session, at);
    }
}

/// Takes the restart position of each slot as saved, but for temporary ones.
pub(crate) fn settle_all(slots: &mut Vec<Slot>)
    ensures { slots.new.items ≡ map settled slots.old.items }
{
    for slot in slots.iter_mut() {
        slot.settle();
    }
}
