//! A store on the rows' disk, changed by its own calls: it is mounted, changed, and left.
ghost use Rattle.std.specs.Prelude.{◌≡◌, ◌%◌, ◌^◌, ◌≤◌, IfOk};

use crate::tools::take_disk;
use bytes::Bytes;
use repl_disk::MemoryDisk;
use repl_lsn::{Lsn, Tli};
use repl_record::{Laid, RecordIn, RecordRefusal, lay_out};
use repl_store::{Store, StoreFault};
use rows_table::{Answer, Miss, said};
use std::alloc::Global;
use test_store_calls::{can_flush, can_raise, can_switch, can_write, child_at};

/// No record is laid out past this position.
const FAR: u64 = 1 << 62;

/// The store on the disk, which is taken.
fn opened(alloc: Global, disk: &mut MemoryDisk) -> Result<Store<MemoryDisk>, Miss> {
    let taken = take_disk(alloc, disk);
    match Store::mount(alloc, taken) {
        Ok(store) => Ok(store),
        Err((_fault, back)) => {
            *disk = back;
            Err(Miss::Words)
        }
    }
}

/// Nothing, where the store did what it was asked for.
fn done(answer: Result<(), StoreFault>) -> Result<(), Miss> {
    match answer {
        Ok(()) => Ok(()),
        Err(StoreFault::Memory) => Err(Miss::Memory),
        Err(_) => Err(Miss::Words),
    }
}

/// Appends so many records with bodies of so many bytes, of which each is its place's remainder by 256, and flushes. Answers
/// where the last of them ends.
pub fn append(alloc: Global, disk: &mut MemoryDisk, count: u64, length: u64) -> Answer {
    let mut store = opened(alloc, disk)?;
    let ended = append_to(alloc, &mut store, count, length);
    *disk = store.into_disk();
    let end = ended?;
    Ok(format!(in alloc; "{end}")?.into_bytes())
}

fn append_to(
    alloc: Global,
    store: &mut Store<MemoryDisk>,
    count: u64,
    length: u64,
) -> Result<Lsn, Miss> {
    let item = item(alloc, length)?;
    let status = store.status();
    let (mut whole, mut prev) = (status.whole, status.prev);
    for _ in 0..count {
        let laid = laid(alloc, store, prev, &item)?;
        write_to(alloc, store, laid.bytes.as_slice())?;
        whole = laid.end;
        prev = laid.start;
    }
    flush(store, whole, prev)?;
    Ok(whole)
}

/// A record with a body of so many bytes.
fn item(alloc: Global, length: u64) -> Result<RecordIn, Miss> {
    let mut body = Vec::new(alloc);
    for place in 0..length {
        body.push((place % 256) as u8)?;
    }
    Ok(RecordIn {
        xid: 0,
        info: 0,
        rmid: 0,
        body: Bytes::from_vec(body)?,
    })
}

/// The record at the written end, after the one that starts at `prev`.
fn laid(
    alloc: Global,
    store: &Store<MemoryDisk>,
    prev: Lsn,
    item: &RecordIn,
) -> Result<Laid, Miss> {
    let status = store.status();
    let at = record_place(status.written)?;
    match lay_out(alloc, at, prev, status.tli, &status.ident, item) {
        Ok(laid) => Ok(laid),
        Err(RecordRefusal::Memory) => Err(Miss::Memory),
        Err(RecordRefusal::TooLong { .. }) => Err(Miss::Words),
    }
}

/// The position, where a record may be laid out there.
fn record_place(at: Lsn) -> Result<Lsn, Miss>
    ensures { IfOk result (λ at. (at % 8 ≡ 0) × (at ≤ 2 ^ 62)) }
{
    if at.0 % 8 == 0 && at.0 <= FAR {
        Ok(at)
    } else {
        Err(Miss::Words)
    }
}

fn flush(store: &mut Store<MemoryDisk>, whole: Lsn, prev: Lsn) -> Result<(), Miss> {
    let role = store.status().role;
    if !can_flush(store, role, whole, prev) {
        return Err(Miss::Words);
    }
    done(store.flush(whole, prev))
}

/// Writes bytes, and flushes none.
pub fn write(alloc: Global, disk: &mut MemoryDisk, bytes: &[u8]) -> Answer {
    let mut store = opened(alloc, disk)?;
    let ended = write_to(alloc, &mut store, bytes);
    *disk = store.into_disk();
    ended?;
    said(alloc, "done")
}

fn write_to(alloc: Global, store: &mut Store<MemoryDisk>, bytes: &[u8]) -> Result<(), Miss> {
    if !can_write(store, bytes.len()) {
        return Err(Miss::Words);
    }
    done(store.write(alloc, bytes))
}

/// Goes over to another timeline after the last whole record, as a promotion would.
pub fn switch(alloc: Global, disk: &mut MemoryDisk, tli: Tli) -> Answer {
    let mut store = opened(alloc, disk)?;
    let ended = switch_to(alloc, &mut store, tli);
    *disk = store.into_disk();
    ended?;
    said(alloc, "done")
}

fn switch_to(alloc: Global, store: &mut Store<MemoryDisk>, tli: Tli) -> Result<(), Miss> {
    let status = store.status();
    let (whole, prev, role) = (status.whole, status.prev, status.role);
    let Some(child) = child_at(alloc, store.path(), tli, whole)? else {
        return Err(Miss::Words);
    };
    if !can_switch(alloc, store, &child, role, whole, prev) {
        return Err(Miss::Words);
    }
    done(store.switch(alloc, &child, whole, prev, role))
}

/// Raises the floor.
pub fn raise(alloc: Global, disk: &mut MemoryDisk, floor: Lsn) -> Answer {
    let mut store = opened(alloc, disk)?;
    let ended = raise_to(&mut store, floor);
    *disk = store.into_disk();
    ended?;
    said(alloc, "done")
}

fn raise_to(store: &mut Store<MemoryDisk>, floor: Lsn) -> Result<(), Miss> {
    if !can_raise(store, floor) {
        return Err(Miss::Words);
    }
    done(store.raise_floor(floor))
}
