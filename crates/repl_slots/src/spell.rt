//! The one spelling of a list of slots, as the file `slots` has it.
ghost use Rattle.std.specs.Prelude.{◌≡◌, ◌++◌, ◌∷◌, [], ◌<◌, ◌^◌, ◌≤◌, length, not, is_some, filter, All, IfOk, IfSome, OnOk};
ghost use Rattle.repl_text.specs.SlotName.{IsSlotName};
ghost use Rattle.repl_slots.specs.Slot.{AreSlots};
ghost use Rattle.repl_slots.specs.SlotFile.{AreEach, Spells, entries_bytes, entries_of, entry_bytes, int64, position_bytes};

use crate::slot::Slot;
use repl_lsn::Lsn;
use std::alloc::{AllocError, Global};

/// The first bytes of the file.
pub(crate) const MAGIC: &[u8; 4] = b"PGRS";

/// The version of the file's format, as it stands there.
pub(crate) const VERSION: &[u8; 2] = &[0, 1];

/// The file of these slots, of which temporary ones are not written. Takes memory for it.
pub fn spell_slots(alloc: Global, slots: &[Slot]) -> Result<Vec<u8>, AllocError>
    requires { AreSlots slots.now }
    ensures { IfOk result (λ file. Spells (entries_of slots.now) file.items) }
{
    let mut file = Vec::new(alloc);
    file.extend_from_slice(MAGIC)?;
    file.extend_from_slice(VERSION)?;
    file.extend_from_slice(&lasting(slots).to_be_bytes())?;
    put_slots(&mut file, slots)?;
    Ok(file)
}

/// How many slots are not temporary.
fn lasting(slots: &[Slot]) -> u16
    requires { AreSlots slots.now }
    ensures { result ≡ length (entries_of slots.now) }
{
    let mut count = 0;
    for slot in slots {
        count += written(slot);
    }
    count
}

/// How often the slot is written: once, or not at all where it is temporary.
fn written(slot: &Slot) -> u16
    ensures count { result ≡ length (entries_of (slot.now ∷ [])) }
    ensures once { result ≤ 1 }
{
    u16::from(slot.temporary.is_none())
}

/// Appends the slots that are not temporary. Where that fails, some bytes may be added.
fn put_slots(file: &mut Vec<u8>, slots: &[Slot]) -> Result<(), AllocError>
    requires { All (λ slot. IsSlotName slot.name) slots.now }
    ensures ok { OnOk result (file.new.items ≡ file.old.items ++ entries_bytes (entries_of slots.now)) }
    ensures fit { OnOk result (AreEach (entries_of slots.now)) }
{
    for slot in slots {
        put_slot(file, slot)?;
    }
    Ok(())
}

/// Appends the slot, unless it is temporary.
fn put_slot(file: &mut Vec<u8>, slot: &Slot) -> Result<(), AllocError>
    requires { IsSlotName slot.now.name }
    ensures ok { OnOk result (file.new.items ≡ file.old.items ++ entries_bytes (entries_of (slot.now ∷ []))) }
    ensures fit { OnOk result (AreEach (entries_of (slot.now ∷ []))) }
{
    if slot.temporary.is_some() {
        return Ok(());
    }
    put_entry(file, slot.name.as_slice(), slot.restart)
}

/// Appends a name and a restart position.
fn put_entry(file: &mut Vec<u8>, name: &[u8], restart: Option<Lsn>) -> Result<(), AllocError>
    requires { IsSlotName name.now }
    ensures ok { OnOk result (file.new.items ≡ file.old.items ++ entry_bytes (record { name = name.now; restart = restart })) }
    ensures fits { IfSome restart (λ position. position < 2 ^ 64) }
{
    file.push(name.len() as u8)?;
    file.extend_from_slice(name)?;
    put_position(file, restart)
}

/// Appends whether there is a position, and the position.
fn put_position(file: &mut Vec<u8>, restart: Option<Lsn>) -> Result<(), AllocError>
    ensures ok { OnOk result (file.new.items ≡ file.old.items ++ position_bytes restart) }
    ensures fits { IfSome restart (λ position. position < 2 ^ 64) }
{
    match restart {
        None => put_number(file, 0, 0),
        Some(position) => put_number(file, 1, position.0),
    }
}

/// Appends a flag and the number after it.
fn put_number(file: &mut Vec<u8>, flag: u8, number: u64) -> Result<(), AllocError>
    ensures { OnOk result (file.new.items ≡ file.old.items ++ flag ∷ int64 number) }
{
    file.push(flag)?;
    file.extend_from_slice(&number.to_be_bytes())
}
