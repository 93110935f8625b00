//! The slots that a file spells, or the place at which it goes wrong.
ghost use Rattle.std.specs.Prelude.{◌≡◌, ◌+◌, ◌++◌, ◌∷◌, [], ◌<◌, ◌^◌, ◌≤◌, ◌↔◌, length, drop, All, IfOk, IfErr, IfSome, IsTrue, slice_index};
ghost use Rattle.repl_slots.specs.Slot.{IsNew, names_of};
ghost use Rattle.repl_slots.specs.SlotFile.{EntryStops, FileStops, HeaderStops, Holds, IsAt, IsCount, IsEntry, IsFlag, IsMagic, IsMounted, IsNameLength, IsNewName, IsPosition, IsVersion, Spells, Stops, entries_of, entry_bytes, entry_of, field, header_bytes, int16, position_bytes, size_at};

use crate::fault::SlotFault;
use crate::find::is_new;
use crate::slot::{SLOT_LIMIT, Slot};
use crate::spell::{MAGIC, VERSION};
use byteorder::{BigEndian, ByteOrder};
use repl_lsn::Lsn;
use repl_text::{SLOT_NAME_LIMIT, Text, is_slot_name};
use std::alloc::Global;

/// The place after the count.
const HEADER: usize = 8;

/// The slots that the file spells, none of them in use, each with its restart position saved. Refuses any other file at the
/// first byte of the first field that is wrong, or at its length where it ends before a field does, or at the first byte
/// after the last slot where more bytes stand (`BadSlots`). Takes memory for the list and the names.
pub fn read_slots(alloc: Global, file: &[u8]) -> Result<Vec<Slot>, SlotFault>
    ensures read { IfOk result (λ slots. All IsMounted slots.items × Spells (entries_of slots.items) file.now) }
    ensures refused { IfErr result (IsAt (FileStops file.now)) }
{
    let count = count_of(file)?;
    let mut slots = Vec::new(alloc);
    let mut at = HEADER;
    for _ in 0..count {
        let (slot, end) = slot_at(alloc, file, at, &slots)?;
        slots.reserve(1)?;
        slots.push_reserved(slot);
        at = end;
    }
    if at < file.len() {
        return Err(SlotFault::BadSlots(at as u64));
    }
    Ok(slots)
}

/// The count in the header.
fn count_of(file: &[u8]) -> Result<usize, SlotFault>
    ensures read { IfOk result (λ count. (count ≤ SLOT_LIMIT) × (file.now ≡ header_bytes count ++ drop 8 file.now)) }
    ensures refused { IfErr result (IsAt (HeaderStops file.now)) }
{
    magic_of(file)?;
    version_of(file)?;
    count_at(file)
}

fn magic_of(file: &[u8]) -> Result<(), SlotFault>
    ensures read { IfOk result (λ _. Holds 0 4 IsMagic file.now) }
    ensures refused { IfErr result (IsAt (Stops 0 4 IsMagic file.now)) }
{
    if field_at(file, 0, 4)? == MAGIC.as_slice() {
        Ok(())
    } else {
        Err(SlotFault::BadSlots(0))
    }
}

fn version_of(file: &[u8]) -> Result<(), SlotFault>
    ensures read { IfOk result (λ _. Holds 4 2 IsVersion file.now) }
    ensures refused { IfErr result (IsAt (Stops 4 2 IsVersion file.now)) }
{
    if field_at(file, 4, 2)? == VERSION.as_slice() {
        Ok(())
    } else {
        Err(SlotFault::BadSlots(4))
    }
}

fn count_at(file: &[u8]) -> Result<usize, SlotFault>
    ensures read { IfOk result (λ count. (count ≤ SLOT_LIMIT) × (8 ≤ length file.now) × (field 6 2 file.now ≡ int16 count)) }
    ensures refused { IfErr result (IsAt (Stops 6 2 IsCount file.now)) }
{
    let count = BigEndian::read_u16(field_at(file, 6, 2)?) as usize;
    if count <= SLOT_LIMIT {
        Ok(count)
    } else {
        Err(SlotFault::BadSlots(6))
    }
}

/// The slot that stands here, after these, and the place after it.
fn slot_at(
    alloc: Global,
    file: &[u8],
    at: usize,
    slots: &[Slot],
) -> Result<(Slot, usize), SlotFault>
    requires { at ≤ length file.now }
    ensures mounted { IfOk result (λ read. IsMounted read.0) }
    ensures right { IfOk result (λ read. IsEntry (entry_of read.0) × IsNew (names_of slots.now) read.0.name) }
    ensures spelled { IfOk result (λ read. drop at file.now ≡ entry_bytes (entry_of read.0) ++ drop read.1 file.now) }
    ensures end { IfOk result (λ read. (read.1 ≡ at + length (entry_bytes (entry_of read.0))) × (read.1 ≤ length file.now)) }
    ensures refused { IfErr result (IsAt (EntryStops (names_of slots.now) at file.now)) }
{
    let size = size_at(file, at)?;
    let name = name_at(file, at + 1, size, slots)?;
    let flag = flag_at(file, at + 1 + size)?;
    let restart = position_at(file, at + 2 + size, flag)?;
    let slot = Slot {
        name: Text::copied(alloc, name)?,
        temporary: None,
        owner: None,
        restart,
        saved: restart,
    };
    Ok((slot, at + 10 + size))
}

/// The length of the name after this place.
fn size_at(file: &[u8], at: usize) -> Result<usize, SlotFault>
    requires { at ≤ length file.now }
    ensures read { IfOk result (λ size. Holds at 1 IsNameLength file.now × (field at 1 file.now ≡ size ∷ []) × (size ≡ size_at at file.now) × (size ≤ SLOT_NAME_LIMIT)) }
    ensures refused { IfErr result (IsAt (Stops at 1 IsNameLength file.now)) }
{
    match field_at(file, at, 1)?[0] as usize {
        size @ 1..=SLOT_NAME_LIMIT => Ok(size),
        _ => Err(SlotFault::BadSlots(at as u64)),
    }
}

/// The name of this size, which none of the slots has.
fn name_at<'a>(
    file: &'a [u8],
    at: usize,
    size: usize,
    slots: &[Slot],
) -> Result<&'a [u8], SlotFault>
    requires { at + size < 2 ^ 64 }
    ensures read { IfOk result (λ name. Holds at size (IsNewName (names_of slots.now)) file.now × (name.now ≡ field at size file.now)) }
    ensures refused { IfErr result (IsAt (Stops at size (IsNewName (names_of slots.now)) file.now)) }
{
    let name = field_at(file, at, size)?;
    if is_slot_name(name) && is_new(slots, name) {
        Ok(name)
    } else {
        Err(SlotFault::BadSlots(at as u64))
    }
}

/// Whether a slot has a position: 1 or 0.
fn flag_at(file: &[u8], at: usize) -> Result<u8, SlotFault>
    requires { at + 1 < 2 ^ 64 }
    ensures read { IfOk result (λ flag. Holds at 1 IsFlag file.now × (field at 1 file.now ≡ flag ∷ []) × (flag ≡ slice_index file.now at)) }
    ensures refused { IfErr result (IsAt (Stops at 1 IsFlag file.now)) }
{
    let flag = field_at(file, at, 1)?[0];
    if flag <= 1 {
        Ok(flag)
    } else {
        Err(SlotFault::BadSlots(at as u64))
    }
}

/// The position after such a flag.
fn position_at(file: &[u8], at: usize, flag: u8) -> Result<Option<Lsn>, SlotFault>
    requires place { at + 8 < 2 ^ 64 }
    requires flag { flag ≤ 1 }
    ensures read { IfOk result (λ restart. (at + 8 ≤ length file.now) × (flag ∷ field at 8 file.now ≡ position_bytes restart)) }
    ensures fits { IfOk result (λ restart. IfSome restart (λ position. position < 2 ^ 64)) }
    ensures refused { IfErr result (IsAt (Stops at 8 (IsPosition flag) file.now)) }
{
    let position = BigEndian::read_u64(field_at(file, at, 8)?);
    match (flag, position) {
        (0, 0) => Ok(None),
        (0, _) => Err(SlotFault::BadSlots(at as u64)),
        _ => Ok(Some(Lsn(position))),
    }
}

/// The bytes of the field of this size at this place. Where the file ends before it does, it goes wrong at its end.
fn field_at(file: &[u8], at: usize, size: usize) -> Result<&[u8], SlotFault>
    requires { at + size < 2 ^ 64 }
    ensures read { IfOk result (λ bytes. (at + size ≤ length file.now) × (bytes.now ≡ field at size file.now) × (length bytes.now ≡ size)) }
    ensures refused { IfErr result (IsAt (λ place. (length file.now < at + size) × (place ≡ length file.now))) }
{
    if file.len() < at + size {
        return Err(SlotFault::BadSlots(file.len() as u64));
    }
    Ok(&file[at..at + size])
}
