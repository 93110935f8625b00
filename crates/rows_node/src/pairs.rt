//! The calls that concern a node and another one.
use crate::answers::{self, done, end};
use crate::making;
use crate::place::{Place, new_disk};
use repl_disk::MemoryDisk;
use repl_lsn::{Tli, parse_history};
use repl_node::Node;
use rows_table::{Answer, Miss, debug};
use std::alloc::Global;

/// No more is read at once than this.
const ROOM: u64 = 131_072;

/// What is done with another node.
#[derive(Clone, Copy)]
pub enum With {
    /// A copy of it, on a disk without files.
    Clone,
    /// A copy of it, on the disk that is here.
    CloneHere,
    /// Its timeline is followed.
    Follow,
    /// So many bytes of its log are received, of its timeline or of this one.
    Pull { count: u64, tli: Option<Tli> },
}

/// Makes a call here with another node.
pub fn answer(
    alloc: Global,
    place: &mut Place,
    other: &mut Node<MemoryDisk>,
    with: With,
) -> Answer {
    match with {
        With::Clone => making::copy(alloc, place, new_disk(alloc), other),
        With::CloneHere => {
            let disk = place.take_disk(alloc);
            making::copy(alloc, place, disk, other)
        }
        With::Follow => follow(alloc, place.node()?, other),
        With::Pull { count, tli } => pull(alloc, place.node()?, other, count, tli),
    }
}

/// Follows the timeline of another node, by the text that it tells.
fn follow(alloc: Global, node: &mut Node<MemoryDisk>, other: &mut Node<MemoryDisk>) -> Answer {
    let own = other.identify().tli;
    let text = match other.history(alloc, own) {
        Ok(text) => text,
        Err(fault) => return debug(alloc, &fault),
    };
    match parse_history(alloc, own, &text) {
        Ok(child) => done(alloc, node.follow(alloc, &child)),
        Err(fault) => debug(alloc, &fault),
    }
}

/// Receives up to so many bytes of another node's log.
fn pull(
    alloc: Global,
    node: &mut Node<MemoryDisk>,
    other: &mut Node<MemoryDisk>,
    count: u64,
    tli: Option<Tli>,
) -> Answer {
    if count > ROOM {
        return Err(Miss::Words);
    }
    let at = node.identify().written;
    let tli = match tli {
        Some(tli) => tli,
        None => other.identify().tli,
    };
    let mut room = vec![in alloc; 0; count as usize]?;
    let read = other.read(alloc, tli, at, &mut room);
    match answers::count(&read) {
        Some(length) if length <= room.len() => {
            end(alloc, node.receive(alloc, tli, at, &room[..length]))
        }
        _ => answers::read(alloc, &read),
    }
}
