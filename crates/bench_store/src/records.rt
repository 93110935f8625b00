//! A log of records, as a check goes through it.
ghost use Rattle.std.specs.Prelude.{◌≡◌, ◌%◌, ◌^◌, ◌≤◌, IfSome};

use bytes::Bytes;
use repl_control::Role;
use repl_disk::Disk;
use repl_lsn::Lsn;
use repl_record::{Laid, RecordIn, lay_out};
use repl_store::Store;
use std::alloc::Global;
use test_store_calls::{can_flush, can_write};

/// How many bytes a record's body has.
const BODY: usize = 8_192;

/// How many records are appended between two flushes. A segment of 16 MiB has 16,728,048 bytes after the headers of its
/// pages, and as many records with their 24 bytes before the body as fit have 16,727,776.
const RECORDS_A_FLUSH: u64 = 2_036;

/// No record is laid out past this position.
const LIMIT: u64 = 1 << 62;

/// Appends records for so many segments, makes them certain after each, and answers the flushed end.
pub fn fill<D: Disk>(alloc: Global, store: &mut Store<D>, segments: u64) -> Option<Lsn> {
    let item = item(alloc)?;
    for _ in 0..segments {
        fill_segment(alloc, store, &item)?;
    }
    Some(store.status().flushed)
}

fn item(alloc: Global) -> Option<RecordIn> {
    let body = vec![in alloc; b'a'; BODY].ok()?;
    Some(RecordIn {
        xid: 0,
        info: 0,
        rmid: 0,
        body: Bytes::from_vec(body).ok()?,
    })
}

/// Appends as many records as a segment takes, and makes them certain.
fn fill_segment<D: Disk>(alloc: Global, store: &mut Store<D>, item: &RecordIn) -> Option<()> {
    let status = store.status();
    let (mut whole, mut prev) = (status.whole, status.prev);
    for _ in 0..RECORDS_A_FLUSH {
        let laid = append(alloc, store, prev, item)?;
        whole = laid.end;
        prev = laid.start;
    }
    if !can_flush(store, Role::Standby, whole, prev) {
        return None;
    }
    store.set_role(Role::Standby, whole, prev).ok()
}

/// Appends a record after the one that starts at `prev`.
fn append<D: Disk>(
    alloc: Global,
    store: &mut Store<D>,
    prev: Lsn,
    item: &RecordIn,
) -> Option<Laid> {
    let status = store.status();
    let at = record_place(status.written)?;
    let laid = lay_out(alloc, at, prev, status.tli, &status.ident, item).ok()?;
    if !can_write(store, laid.bytes.len()) {
        return None;
    }
    store.write(alloc, laid.bytes.as_slice()).ok()?;
    Some(laid)
}

/// The position, where a record may be laid out there.
fn record_place(at: Lsn) -> Option<Lsn>
    ensures { IfSome result (λ at. (at % 8 ≡ 0) × (at ≤ 2 ^ 62)) }
{
    if at.0 % 8 == 0 && at.0 <= LIMIT {
        Some(at)
    } else {
        None
    }
}
