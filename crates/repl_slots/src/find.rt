//! What is found in a list of slots.
ghost use Rattle.std.specs.Prelude.{◌≡◌, ◌↔◌, Some, None, IsTrue, MatchOption};
ghost use Rattle.repl_slots.specs.Slot.{CanUse, IsFloor, IsNew, lower, names_of, slot_named};

use crate::fault::SlotFault;
use crate::slot::Slot;
use repl_lsn::Lsn;

/// The slot of this name.
pub fn find_slot<'a>(slots: &'a [Slot], name: &[u8]) -> Option<&'a Slot>
    ensures { MatchOption result (slot_named name.now slots.now ≡ None) (λ slot. slot_named name.now slots.now ≡ Some slot.now) }
{
    slots.iter().find(|slot| slot.is_named(name))
}

/// Whether no slot has this name.
pub(crate) fn is_new(slots: &[Slot], name: &[u8]) -> bool
    ensures { IsTrue result ↔ IsNew (names_of slots.now) name.now }
{
    find_slot(slots, name).is_none()
}

/// Whether the session can use the slot of this name.
pub(crate) fn usable(slots: &[Slot], name: &[u8], session: u64) -> Result<(), SlotFault>
    ensures { CanUse slots.now name.now session result }
{
    match find_slot(slots, name) {
        None => Err(SlotFault::NoSlot),
        Some(slot) => match slot.holder(session) {
            None => Ok(()),
            Some(session) => Err(SlotFault::InUse { session }),
        },
    }
}

/// The least position that holds the log back.
pub(crate) fn floor_of(slots: &[Slot]) -> Option<Lsn>
    ensures { IsFloor slots.now result }
{
    let mut floor = None;
    for slot in slots {
        floor = lower(floor, slot.held());
    }
    floor
}

/// The lower of the two positions, if there are any.
fn lower(first: Option<Lsn>, second: Option<Lsn>) -> Option<Lsn>
    ensures { result ≡ lower first second }
{
    let Some(a) = first else {
        return second;
    };
    let Some(b) = second else {
        return first;
    };
    Some(if a.0 <= b.0 { a } else { b })
}
