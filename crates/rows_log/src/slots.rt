//! Replication slots, and the disk that keeps them. Both stay from one row of the subject to the next.
use crate::disks;
use repl_disk::MemoryDisk;
use repl_lsn::Lsn;
use repl_slots::{Slot, SlotFault, Slots, read_slots};
use rows_table::{Answer, Call, Miss, debug, is, joined, number, said, text};
use std::alloc::Global;

/// The calls of a disk that a save makes.
const SAVE: u64 = 4;

pub fn answer(alloc: Global, disk: &mut MemoryDisk, slots: &mut Slots, call: &Call) -> Answer {
    if let Some([file]) = call.words("read_slots") {
        return read(alloc, file);
    }
    if let Some([way, how, calls]) = call.words("saving") {
        return saving(alloc, way, text(how)?, number(calls)?);
    }
    if let Some([]) = call.words("none") {
        *slots = Slots::new(alloc);
        return said(alloc, "done");
    }
    if let Some([]) = call.words("mount") {
        return mount(alloc, disk, slots);
    }
    if let Some([]) = call.words("save") {
        return done(alloc, slots.save(alloc, disk));
    }
    if let Some([]) = call.words("list") {
        return listed(alloc, slots.list());
    }
    if let Some([]) = call.words("floor") {
        return debug(alloc, &slots.floor_for());
    }
    change(alloc, disk, slots, call)
}

/// Calls that change the list, and else those of the disk.
fn change(alloc: Global, disk: &mut MemoryDisk, slots: &mut Slots, call: &Call) -> Answer {
    if let Some([name, kind, session, restart]) = call.words("create") {
        let temporary = is(text(kind)?, "temporary");
        let made = slots.create(alloc, name, temporary, number(session)?, position(restart)?);
        return done(alloc, made);
    }
    if let Some([name, session]) = call.words("drop") {
        return done(alloc, slots.drop_slot(name, number(session)?));
    }
    if let Some([name, session]) = call.words("acquire") {
        return done(alloc, slots.acquire(name, number(session)?));
    }
    if let Some([session]) = call.words("release") {
        slots.release(number(session)?);
        return said(alloc, "done");
    }
    if let Some([session, at]) = call.words("confirm") {
        slots.confirm(number(session)?, Lsn(number(at)?));
        return said(alloc, "done");
    }
    if let Some([session]) = call.words("end") {
        slots.end_session(number(session)?);
        return said(alloc, "done");
    }
    disks::answer(alloc, disk, call)
}

fn done(alloc: Global, answer: Result<(), SlotFault>) -> Answer {
    match answer {
        Ok(()) => said(alloc, "done"),
        Err(fault) => debug(alloc, &fault),
    }
}

/// A restart position, or none, as `-`.
fn position(word: &[u8]) -> Result<Option<Lsn>, Miss> {
    if is(text(word)?, "-") {
        Ok(None)
    } else {
        Ok(Some(Lsn(number(word)?)))
    }
}

fn read(alloc: Global, file: &[u8]) -> Answer {
    match read_slots(alloc, file) {
        Ok(slots) => listed(alloc, &slots),
        Err(fault) => debug(alloc, &fault),
    }
}

fn mount(alloc: Global, disk: &mut MemoryDisk, slots: &mut Slots) -> Answer {
    match Slots::mount(alloc, disk) {
        Ok(mounted) => {
            *slots = mounted;
            said(alloc, "done")
        }
        Err(fault) => debug(alloc, &fault),
    }
}

/// Of each slot its name, its restart position, the one that was saved, the session that made it for itself, and its
/// owner; `-` where there is none. Numbers are hexadecimal.
fn listed(alloc: Global, slots: &[Slot]) -> Answer {
    let mut all = Vec::new(alloc);
    for (place, slot) in slots.iter().enumerate() {
        if place > 0 {
            all.extend_from_slice(b", ")?;
        }
        all.extend_from_slice(slot.name.as_slice())?;
        put(alloc, &mut all, slot.restart.map(|at| at.0))?;
        put(alloc, &mut all, slot.saved.map(|at| at.0))?;
        put(alloc, &mut all, slot.temporary)?;
        put(alloc, &mut all, slot.owner)?;
    }
    Ok(all)
}

fn put(alloc: Global, all: &mut Vec<u8>, number: Option<u64>) -> Result<(), Miss> {
    match number {
        Some(number) => all.extend_from_slice(format!(in alloc; " {number:x}")?.as_bytes())?,
        None => all.extend_from_slice(b" -")?,
    }
    Ok(())
}

/// A disk with the slot `a` saved at 1, on which it is saved at 2 and the program crashes: how that save ended, and what is
/// mounted then. The save's call of this number fails, or the disk fails after so many calls.
fn saving(alloc: Global, way: &[u8], how: &str, calls: u64) -> Answer {
    let keep = disks::is_keep(way)?;
    let mut disk = disks::failing(alloc, how, calls, SAVE)?;
    let mut slots = Slots::new(alloc);
    let began = saved_at_1(alloc, &mut disk, &mut slots);
    if began.is_err() {
        return done(alloc, began);
    }
    if is(how, "fuse") {
        disk.fuse(calls);
    }
    let ended = done(alloc, slots.save(alloc, &mut disk))?;
    let mut after = disk.crash(keep);
    let mounted = mount(alloc, &mut after, &mut slots)?;
    joined(alloc, &[&ended, &mounted, &listed(alloc, slots.list())?])
}

/// Saves the slot `a` at 1, and raises it to 2.
fn saved_at_1(alloc: Global, disk: &mut MemoryDisk, slots: &mut Slots) -> Result<(), SlotFault> {
    slots.create(alloc, b"a", false, 1, Some(Lsn(1)))?;
    slots.save(alloc, disk)?;
    slots.acquire(b"a", 1)?;
    slots.confirm(1, Lsn(2));
    Ok(())
}
