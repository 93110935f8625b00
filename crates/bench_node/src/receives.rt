//! Receiving a log.
use crate::records::Records;
use crate::{Figures, since};
use repl_disk::Disk;
use repl_lsn::Lsn;
use repl_node::Node;
use repl_page::Ident;
use std::alloc::Global;
use std::rt::Clock;
use std::time::Instant;

/// How many bytes are received at once: as many as a message of the log carries at most.
const PIECE: usize = 131_072;

/// How many are received between two flushes, and how many MiB these are.
const SEGMENT: usize = 16_777_216;

const MIB_A_SEGMENT: u64 = 16;

/// Receives so many MiB of records in whole segments, and flushes after each.
pub fn receive<D: Disk>(
    clock: &impl Clock,
    alloc: Global,
    node: &mut Node<D>,
    ident: Ident,
    mib: u64,
) -> Option<Figures> {
    let status = node.identify();
    let mut records = Records::new(alloc, status.written, status.tli, ident)?;
    let mut figures = Figures {
        end: status.flushed,
        calls: 0,
        laying: 0,
    };
    for _ in 0..mib / MIB_A_SEGMENT {
        let start = Instant::now(clock).ok()?;
        records.lay(alloc, SEGMENT)?;
        figures.laying = figures.laying.saturating_add(since(clock, start)?);
        let start = Instant::now(clock).ok()?;
        figures.end = receive_segment(alloc, node, records.front(SEGMENT)?)?;
        figures.calls = figures.calls.saturating_add(since(clock, start)?);
        records.take(alloc, SEGMENT)?;
    }
    Some(figures)
}

/// Receives the bytes in pieces, and flushes them.
fn receive_segment<D: Disk>(alloc: Global, node: &mut Node<D>, bytes: &[u8]) -> Option<Lsn> {
    let status = node.identify();
    let mut at = status.written;
    for number in 0..SEGMENT / PIECE {
        let piece = piece_of(bytes, number)?;
        at = node.receive(alloc, status.tli, at, piece).ok()?;
    }
    node.flush().ok()
}

/// The piece of this number.
fn piece_of(bytes: &[u8], number: usize) -> Option<&[u8]> {
    let start = number.saturating_mul(PIECE);
    bytes.get(start..start.saturating_add(PIECE))
}
