//! The values of replies, in words.
use bytes::Bytes;
use repl_hub::{HubStatus, SlotPlace};
use repl_lsn::{Lsn, Tli};
use repl_names::{StandbyList, print_names};
use repl_node::{Identity, NodeFault};
use repl_sync::{Certificate, CountedList};
use rows_table::{Answer, debug, joined, said};
use std::alloc::{AllocError, Global};
use std::fmt;

/// That it is done, or the fault.
pub fn done<E: fmt::Debug>(alloc: Global, told: &Result<(), E>) -> Answer {
    match told {
        Ok(()) => said(alloc, "done"),
        Err(fault) => debug(alloc, fault),
    }
}

/// The number that was given, or the fault.
pub fn given<E: fmt::Debug>(alloc: Global, told: &Result<u64, E>) -> Answer {
    match told {
        Ok(number) => debug(alloc, number),
        Err(fault) => debug(alloc, fault),
    }
}

/// The position, or the fault.
pub fn end(alloc: Global, told: &Result<Lsn, NodeFault>) -> Answer {
    match told {
        Ok(end) => Ok(format!(in alloc; "{end}")?.into_bytes()),
        Err(fault) => debug(alloc, fault),
    }
}

/// The new timeline and where it begins, or the fault.
pub fn begun(alloc: Global, told: &Result<(Tli, Lsn), NodeFault>) -> Answer {
    match told {
        Ok((tli, switch)) => Ok(format!(in alloc; "{tli} {switch}")?.into_bytes()),
        Err(fault) => debug(alloc, fault),
    }
}

/// The text, or the fault.
pub fn text(alloc: Global, told: &Result<Bytes, NodeFault>) -> Answer {
    match told {
        Ok(text) => Ok(text.as_slice().to_vec(alloc)?),
        Err(fault) => debug(alloc, fault),
    }
}

/// The system, the role, the timeline, and the floor, the whole, the flushed and the written end.
pub fn identity(alloc: Global, told: &Identity) -> Answer {
    let head = format!(in alloc; "{} {:?} {}", told.sysid, told.role, told.tli)?;
    let ends = format!(in alloc;
        "{} {} {} {}",
        told.floor, told.whole, told.flushed, told.written
    )?;
    joined(alloc, &[head.as_bytes(), ends.as_bytes()])
}

/// The same, how many sessions stream, and whether the hub has stopped.
pub fn status(alloc: Global, told: &HubStatus) -> Answer {
    let identity = identity(alloc, &told.identity)?;
    let rest = format!(in alloc; "{} {}", told.streaming, told.stopped)?;
    joined(alloc, &[&identity, rest.as_bytes()])
}

/// The position and the timeline at which a slot begins.
pub fn place(alloc: Global, told: &SlotPlace) -> Answer {
    match told {
        SlotPlace::NoSlot => said(alloc, "NoSlot"),
        SlotPlace::NoPosition => said(alloc, "NoPosition"),
        SlotPlace::At { restart, tli } => { Ok(format!(in alloc; "{restart} {tli}")?.into_bytes()) }
    }
}

/// The list as it is spelled.
pub fn standbys(alloc: Global, told: &Result<StandbyList, AllocError>) -> Answer {
    match told {
        Ok(list) => Ok(print_names(alloc, list)?),
        Err(fault) => debug(alloc, fault),
    }
}

/// What of the reports counted, the end, the list, and each session that counted.
pub fn certificate(alloc: Global, told: &Certificate) -> Answer {
    let head = format!(in alloc; "{:?} {}", told.mode, told.end)?;
    let list = print_names(alloc, &told.list)?;
    let counted = counted(alloc, &told.counted)?;
    joined(alloc, &[head.as_bytes(), &list, &counted])
}

/// Each session's number, its standby's name, and how far that was, with `;` after.
fn counted(alloc: Global, told: &CountedList) -> Answer {
    let mut line = Vec::new(alloc);
    for one in told.as_slice() {
        line.extend_from_slice(format!(in alloc; "{} ", one.session)?.as_bytes())?;
        line.extend_from_slice(one.name.as_slice())?;
        line.extend_from_slice(format!(in alloc; " {};", one.position)?.as_bytes())?;
    }
    Ok(line)
}
