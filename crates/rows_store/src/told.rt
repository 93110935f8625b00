//! What calls of a store answer, in words.
use repl_control::Role;
use repl_disk::{DiskError, MemoryDisk};
use repl_store::{Store, StoreFault};
use rows_table::{Answer, debug, joined, said};
use std::alloc::Global;

/// `done`, or why the store refused.
pub fn ended(alloc: Global, answer: Result<(), StoreFault>) -> Answer {
    match answer {
        Ok(()) => said(alloc, "done"),
        Err(fault) => refused(alloc, &fault),
    }
}

/// The same of a disk.
pub fn done(alloc: Global, answer: Result<(), DiskError>) -> Answer {
    match answer {
        Ok(()) => said(alloc, "done"),
        Err(error) => debug(alloc, &error),
    }
}

/// Why a store refused, with names as text.
pub fn refused(alloc: Global, fault: &StoreFault) -> Answer {
    match fault {
        StoreFault::Missing(name) => joined(alloc, &[b"Missing", name.as_slice()]),
        StoreFault::BadHistory { tli, fault } => {
            Ok(format!(in alloc; "BadHistory {} {fault:?}", tli.number())?.into_bytes())
        }
        StoreFault::ShortFile { name, have, needed } => {
            let counts = format!(in alloc; "have {have} needed {needed}")?;
            joined(alloc, &[b"ShortFile", name.as_slice(), counts.as_bytes()])
        }
        other => debug(alloc, other),
    }
}

/// The role, the timeline, and where the floor, the last whole record's start, the whole, the flushed and the written end
/// are.
pub fn status(alloc: Global, store: &Store<MemoryDisk>) -> Answer {
    let status = store.status();
    let (tli, role) = (status.tli.number(), role(status.role));
    let (floor, prev, whole) = (status.floor, status.prev, status.whole);
    let (flushed, written) = (status.flushed, status.written);
    let line = format!(in alloc; "{role} {tli} {floor} {prev} {whole} {flushed} {written}")?;
    Ok(line.into_bytes())
}

/// What the store's first pages say: the system, the magic number, the size of segments.
pub fn identity(alloc: Global, store: &Store<MemoryDisk>) -> Answer {
    let status = store.status();
    let (sysid, same, magic) = (status.sysid, status.ident.sysid, status.ident.magic);
    let size = status.ident.size.bytes();
    Ok(format!(in alloc; "{sysid} {same} {magic:x} {size}")?.into_bytes())
}

fn role(role: Role) -> &'static str {
    match role {
        Role::Primary => "primary",
        Role::Standby => "standby",
    }
}

/// The greatest number of a timeline that the store has heard of.
pub fn known(alloc: Global, store: &mut Store<MemoryDisk>) -> Answer {
    match store.known_numbers() {
        Ok(tli) => debug(alloc, &tli.number()),
        Err(fault) => refused(alloc, &fault),
    }
}
