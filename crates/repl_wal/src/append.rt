//! Appending records, on a primary.
ghost use Rattle.std.specs.Prelude.{◌≡◌, ◌+◌, ◌%◌, ◌^◌, ◌<◌, ◌≤◌, ◌⊎◌, ◌↔◌, length, Err, IfErr, IfOk, IsTrue};
ghost use Rattle.repl_record.specs.Length.{image_end};
ghost use Rattle.repl_record.specs.Record.{HeadersAreSpelled, IsImage, start_of, total_length};
ghost use Rattle.repl_store.specs.Apart.{StaysApart};
ghost use Rattle.repl_wal.specs.Holding.{Calls, IsIdle};
ghost use Rattle.repl_wal.specs.Steps.{Old};
ghost use Rattle.repl_wal.specs.Writing.{Appends, IsUnlaid};

use crate::fault::{NodeFault, stop};
use crate::wal::{LOG_LIMIT, Wal, is_standby};
use repl_disk::Disk;
use repl_lsn::{Lsn, SegSize};
use repl_record::{BODY_LIMIT, Laid, RecordIn, Walker, image_end, lay_out};
use repl_store::StoreStatus;
use std::alloc::Global;

impl<D: Disk> Wal<D> {
    /// Appends a record after the last one, and answers where it ends. It is certain on the disk from the next `flush` on.
    /// Takes memory for the record's image, once.
    pub fn append(&mut self, alloc: Global, item: &RecordIn) -> Result<Lsn, NodeFault>
        ensures steps { Calls D.state self.old self.new result (λ n. Appends n item.now result) Old }
        ensures idle { IsIdle result self.old self.new }
        ensures apart { StaysApart (D.state self.old.disk) (D.state self.new.disk) }
        ensures keeps { D.keeps self.old.disk self.new.disk }
    {
        if self.stopped.is_some() {
            return Err(NodeFault::Broken);
        }
        let before = self.store.status();
        if is_standby(before.role) {
            return Err(NodeFault::NotPrimary);
        }
        let laid = match lay_past(alloc, &before, self.walker.last_start(), item) {
            Ok(laid) => laid,
            Err(fault) => return Err(fault),
        };
        match self.store.write(alloc, laid.bytes.as_slice()) {
            Ok(()) => {
                self.walker = Walker::new(laid.end, laid.start, before.ident);
                Ok(laid.end)
            }
            Err(fault) => Err(stop(&mut self.stopped, before, fault)),
        }
    }
}

/// The record laid out past the written end, where one ends that starts at `prev`.
fn lay_past(
    alloc: Global,
    status: &StoreStatus,
    prev: Lsn,
    item: &RecordIn,
) -> Result<Laid, NodeFault>
    requires { status.now.written % 8 ≡ 0 }
    ensures image { IfOk result (λ laid. IsImage status.now.ident (λ _. status.now.tli) status.now.written prev item.now laid.bytes) }
    ensures spelled { IfOk result (λ laid. HeadersAreSpelled status.now.ident (λ _. status.now.tli) (total_length item.now) status.now.written laid.bytes) }
    ensures start { IfOk result (λ laid. laid.start ≡ start_of status.now.ident.size status.now.written) }
    ensures end { IfOk result (λ laid. (laid.end ≡ status.now.written + length laid.bytes) × (laid.end ≤ 2 ^ 62)) }
    ensures fits { IfOk result (λ laid. (length item.now.body ≤ BODY_LIMIT) × (image_end status.now.ident.size status.now.written (length item.now.body) ≤ 2 ^ 62)) }
    ensures refused { IfErr result (IsUnlaid status.now item.now) }
{
    let length = item.body.as_slice().len();
    if length > BODY_LIMIT {
        return Err(NodeFault::TooLong { len: length as u64 });
    }
    if !has_room(status.written, status.ident.size, length) {
        return Err(NodeFault::LogFull);
    }
    match lay_out(alloc, status.written, prev, status.tli, &status.ident, item) {
        Ok(laid) => Ok(laid),
        Err(_) => Err(NodeFault::Memory),
    }
}

/// Whether a record with a body of so many bytes, laid here, ends within the log's limit.
fn has_room(at: Lsn, size: SegSize, length: usize) -> bool
    requires { length ≤ BODY_LIMIT }
    ensures { IsTrue result ↔ (image_end size at length ≤ 2 ^ 62) }
{
    if at.0 > LOG_LIMIT {
        return false;
    }
    image_end(at, length, size).0 <= LOG_LIMIT
}
