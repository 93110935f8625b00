//! Appending small records.
use crate::records::item;
use crate::{Figures, since};
use repl_disk::Disk;
use repl_node::Node;
use std::alloc::Global;
use std::rt::Clock;
use std::time::Instant;

/// How many bytes a record's body has.
const BODY: usize = 100;

/// Appends so many records, and flushes them.
pub fn append<D: Disk>(
    clock: &impl Clock,
    alloc: Global,
    node: &mut Node<D>,
    count: u64,
) -> Option<Figures> {
    let item = item(alloc, BODY)?;
    let start = Instant::now(clock).ok()?;
    for _ in 0..count {
        node.append(alloc, &item).ok()?;
    }
    let end = node.flush().ok()?;
    Some(Figures {
        end,
        calls: since(clock, start)?,
        laying: 0,
    })
}
