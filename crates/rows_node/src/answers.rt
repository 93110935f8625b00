//! What calls answer, in words.
use crate::sums::{Sum, log_sum};
use repl_disk::MemoryDisk;
use repl_lsn::{Lsn, Part};
use repl_node::{Node, NodeFault, ReadOut, Slot, SlotFault};
use rows_table::{Answer, Miss, debug, joined, said};
use std::alloc::Global;
use std::fmt;

pub fn end(alloc: Global, answer: Result<Lsn, NodeFault>) -> Answer {
    match answer {
        Ok(end) => Ok(format!(in alloc; "{end}")?.into_bytes()),
        Err(fault) => debug(alloc, &fault),
    }
}

pub fn done(alloc: Global, answer: Result<(), NodeFault>) -> Answer {
    match answer {
        Ok(()) => said(alloc, "done"),
        Err(fault) => debug(alloc, &fault),
    }
}

pub fn of_slots(alloc: Global, answer: Result<(), SlotFault>) -> Answer {
    match answer {
        Ok(()) => said(alloc, "done"),
        Err(fault) => debug(alloc, &fault),
    }
}

pub fn read(alloc: Global, answer: &Result<ReadOut, NodeFault>) -> Answer {
    match answer {
        Ok(out) => debug(alloc, out),
        Err(fault) => debug(alloc, fault),
    }
}

/// How many bytes were read.
pub fn count(answer: &Result<ReadOut, NodeFault>) -> Option<usize> {
    match answer {
        Ok(ReadOut::Bytes(count)) => Some(*count),
        _ => None,
    }
}

/// The system, the role, the timeline, and the floor, the whole, the flushed and the written end.
pub fn status(alloc: Global, node: &Node<MemoryDisk>) -> Answer {
    let node = node.identify();
    let head = format!(in alloc; "{} {:?} {} ", node.sysid, node.role, node.tli.number())?;
    let ends = format!(in alloc;
        "{} {} {} {}",
        node.floor, node.whole, node.flushed, node.written
    )?;
    let mut line = head.into_bytes();
    line.extend_from_slice(ends.as_bytes())?;
    Ok(line)
}

/// How many bytes came, and the checksum of the whole room; or what came instead.
pub fn sum(alloc: Global, came: &Result<ReadOut, NodeFault>, room: &[u8]) -> Answer {
    match count(came) {
        Some(count) => {
            let mut sum = Sum::new();
            sum.add(room);
            Ok(format!(in alloc; "{count} {:08x}", sum.value())?.into_bytes())
        }
        None => read(alloc, came),
    }
}

/// All that a node tells: its status, its path, its log, and its slots.
pub fn state(alloc: Global, node: &mut Node<MemoryDisk>) -> Answer {
    let status = status(alloc, node)?;
    let path = path(alloc, node.path().parents().as_slice())?;
    let log = log_sum(alloc, node)?;
    let slots = slots(alloc, node.slots())?;
    joined(alloc, &[&status, &path, &log, &slots])
}

/// Each timeline that was left, and where, between `[` and `]`.
fn path(alloc: Global, parents: &[Part]) -> Answer {
    let mut line = Vec::new(alloc);
    line.push(b'[')?;
    for part in parents {
        let step = format!(in alloc; "{}@{};", part.tli.number(), part.switch)?;
        line.extend_from_slice(step.as_bytes())?;
    }
    line.push(b']')?;
    Ok(line)
}

/// Of each slot the name, the session that made it for itself, its owner, its restart position and the saved one, between `[`
/// and `]`, with `-` for none.
pub fn slots(alloc: Global, slots: &[Slot]) -> Answer {
    let mut line = Vec::new(alloc);
    line.push(b'[')?;
    for slot in slots {
        line.extend_from_slice(slot.name.as_slice())?;
        word(alloc, &mut line, &slot.temporary)?;
        word(alloc, &mut line, &slot.owner)?;
        word(alloc, &mut line, &slot.restart)?;
        word(alloc, &mut line, &slot.saved)?;
        line.push(b';')?;
    }
    line.push(b']')?;
    Ok(line)
}

/// Puts a blank and the value after the line, or `-` where there is none.
fn word<T: fmt::Display>(alloc: Global, line: &mut Vec<u8>, value: &Option<T>) -> Result<(), Miss> {
    let text = match value {
        Some(value) => format!(in alloc; " {value}")?,
        None => String::from_str(alloc, " -")?,
    };
    line.extend_from_slice(text.as_bytes())?;
    Ok(())
}
