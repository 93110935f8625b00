//! Calls of the store, as rows spell them.
use crate::files;
use crate::place::Place;
use crate::told::{ended, identity, known, refused, status};
use repl_control::{Role, version_1_size};
use repl_disk::MemoryDisk;
use repl_lsn::{Lsn, Tli};
use repl_page::Ident;
use repl_store::{Store, StoreFault};
use rows_table::{Answer, Call, Miss, number, said, short, text};
use std::alloc::Global;
use test_store_calls::{can_flush, can_raise, can_read, can_switch, can_write, child_at};

/// How many bytes are read or written at once at most.
const PIECE: u64 = 1 << 20;

/// The magic number of the pages of all stores here.
const MAGIC: u16 = 0xd116;

pub fn answer(alloc: Global, place: &mut Place, call: &Call) -> Answer {
    if let Some(numbers) = call.words("fresh") {
        return begin(alloc, place, numbers);
    }
    if let Some([name, sysid]) = call.words("create") {
        return create(alloc, place, role(name)?, number(sysid)?);
    }
    if let Some([]) = call.words("mount") {
        return mount(alloc, place);
    }
    if let Some([way]) = call.words("crash") {
        let after = place.take_disk(alloc).crash(is_keep(way)?);
        *place = Place::Bare(after);
        return said(alloc, "done");
    }
    if let Some([at, count]) = call.words("read") {
        return read(alloc, place.store()?, Lsn(number(at)?), number(count)?);
    }
    tell(alloc, place, call)
}

/// Calls that tell what a store is.
fn tell(alloc: Global, place: &mut Place, call: &Call) -> Answer {
    if let Some([]) = call.words("status") {
        return status(alloc, place.store()?);
    }
    if let Some([]) = call.words("identity") {
        return identity(alloc, place.store()?);
    }
    if let Some([]) = call.words("known") {
        return known(alloc, place.store()?);
    }
    change(alloc, place, call)
}

/// Calls that change the store, or the files of its disk.
fn change(alloc: Global, place: &mut Place, call: &Call) -> Answer {
    if let Some([bytes]) = call.words("write") {
        return ended(alloc, write(alloc, place.store()?, bytes)?);
    }
    if let Some([count, bytes]) = call.words("fill") {
        return fill(alloc, place.store()?, number(count)?, number(bytes)?);
    }
    if let Some([whole, prev]) = call.words("flush") {
        return flush(alloc, place.store()?, whole, prev);
    }
    if let Some([name, whole, prev]) = call.words("set_role") {
        return set_role(alloc, place.store()?, name, whole, prev);
    }
    if let Some([tli, switch, whole, prev, name]) = call.words("switch") {
        return switch_to(alloc, place.store()?, [tli, switch, whole, prev, name]);
    }
    if let Some([floor]) = call.words("raise") {
        return raise(alloc, place.store()?, Lsn(number(floor)?));
    }
    files::answer(alloc, place.disk(), call)
}

/// Puts a disk without files here, whose calls with these numbers fail.
fn begin(alloc: Global, place: &mut Place, numbers: &[Vec<u8>]) -> Answer {
    let mut failing = Vec::new(alloc);
    for word in numbers {
        failing.push(number(word)?)?;
    }
    *place = Place::fresh(alloc, failing);
    said(alloc, "done")
}

/// Makes a store on the disk.
fn create(alloc: Global, place: &mut Place, role: Role, sysid: u64) -> Answer {
    let ident = Ident {
        sysid,
        magic: MAGIC,
        size: version_1_size(),
    };
    let made = Store::create(alloc, place.take_disk(alloc), ident, role);
    put(alloc, place, made)
}

/// Mounts the store that stands on the disk.
fn mount(alloc: Global, place: &mut Place) -> Answer {
    let opened = Store::mount(alloc, place.take_disk(alloc));
    put(alloc, place, opened)
}

/// Puts the store here, or the disk without one.
fn put(
    alloc: Global,
    place: &mut Place,
    opened: Result<Store<MemoryDisk>, (StoreFault, MemoryDisk)>,
) -> Answer {
    match opened {
        Ok(store) => {
            *place = Place::Mounted(store);
            said(alloc, "done")
        }
        Err((fault, disk)) => {
            *place = Place::Bare(disk);
            refused(alloc, &fault)
        }
    }
}

/// The bytes of the log from this position on.
fn read(alloc: Global, store: &mut Store<MemoryDisk>, at: Lsn, count: u64) -> Answer {
    if count > PIECE {
        return Err(Miss::Words);
    }
    let mut room = vec![in alloc; 0; count as usize]?;
    if !can_read(store, at, room.len()) {
        return Err(Miss::Words);
    }
    match store.read_into(alloc, at, &mut room) {
        Ok(()) => Ok(room),
        Err(fault) => refused(alloc, &fault),
    }
}

/// How a write ends.
fn write(
    alloc: Global,
    store: &mut Store<MemoryDisk>,
    bytes: &[u8],
) -> Result<Result<(), StoreFault>, Miss> {
    if !can_write(store, bytes.len()) {
        return Err(Miss::Words);
    }
    Ok(store.write(alloc, bytes))
}

/// Writes so many pieces of so many bytes. Each byte of a piece is its number, from 0.
fn fill(alloc: Global, store: &mut Store<MemoryDisk>, count: u64, bytes: u64) -> Answer {
    if bytes > PIECE {
        return Err(Miss::Words);
    }
    for piece in 0..count {
        let piece = vec![in alloc; (piece % 256) as u8; bytes as usize]?;
        if let Err(fault) = write(alloc, store, &piece)? {
            return refused(alloc, &fault);
        }
    }
    said(alloc, "done")
}

fn flush(alloc: Global, store: &mut Store<MemoryDisk>, whole: &[u8], prev: &[u8]) -> Answer {
    let (whole, prev) = (Lsn(number(whole)?), Lsn(number(prev)?));
    let role = store.status().role;
    if !can_flush(store, role, whole, prev) {
        return Err(Miss::Words);
    }
    ended(alloc, store.flush(whole, prev))
}

fn set_role(
    alloc: Global,
    store: &mut Store<MemoryDisk>,
    name: &[u8],
    whole: &[u8],
    prev: &[u8],
) -> Answer {
    let (whole, prev) = (Lsn(number(whole)?), Lsn(number(prev)?));
    let role = role(name)?;
    if !can_flush(store, role, whole, prev) {
        return Err(Miss::Words);
    }
    ended(alloc, store.set_role(role, whole, prev))
}

/// Goes over to a timeline that leaves the own one, as a promotion would.
fn switch_to(alloc: Global, store: &mut Store<MemoryDisk>, words: [&[u8]; 5]) -> Answer {
    let [tli, switch, whole, prev, name] = words;
    let (whole, prev) = (Lsn(number(whole)?), Lsn(number(prev)?));
    let (tli, switch) = (
        Tli::new(short(tli)?).ok_or(Miss::Words)?,
        Lsn(number(switch)?),
    );
    let role = role(name)?;
    let Some(child) = child_at(alloc, store.path(), tli, switch)? else {
        return Err(Miss::Words);
    };
    if !can_switch(alloc, store, &child, role, whole, prev) {
        return Err(Miss::Words);
    }
    ended(alloc, store.switch(alloc, &child, whole, prev, role))
}

fn raise(alloc: Global, store: &mut Store<MemoryDisk>, floor: Lsn) -> Answer {
    if !can_raise(store, floor) {
        return Err(Miss::Words);
    }
    ended(alloc, store.raise_floor(floor))
}

fn role(word: &[u8]) -> Result<Role, Miss> {
    match text(word)? {
        "primary" => Ok(Role::Primary),
        "standby" => Ok(Role::Standby),
        _ => Err(Miss::Words),
    }
}

/// Whether a crash keeps what was not synced.
pub fn is_keep(way: &[u8]) -> Result<bool, Miss> {
    match text(way)? {
        "keep" => Ok(true),
        "lose" => Ok(false),
        _ => Err(Miss::Words),
    }
}
