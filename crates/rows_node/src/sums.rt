//! The checksum of bytes that a node reads: Adler-32, which shares nothing with the log's own.
use crate::answers::{count, read};
use repl_disk::MemoryDisk;
use repl_lsn::Lsn;
use repl_node::Node;
use rows_table::{Answer, Miss, joined};
use std::alloc::Global;

/// How many bytes are read at once, and how often at most.
const ROOM: usize = 16_384;

const READS: u64 = 10_000;

/// The greatest prime number below 2^16.
const PRIME: u32 = 65_521;

/// The sum of the bytes and one, and the sum of these sums.
#[derive(Drop)]
pub struct Sum {
    low: u32,
    high: u32,
}

impl Sum {
    /// That of no bytes.
    pub fn new() -> Sum {
        Sum { low: 1, high: 0 }
    }

    /// Takes more bytes.
    pub fn add(&mut self, bytes: &[u8]) {
        for byte in bytes {
            self.low = self.low.wrapping_add(u32::from(*byte)) % PRIME;
            self.high = self.high.wrapping_add(self.low) % PRIME;
        }
    }

    pub fn value(&self) -> u32 {
        self.high.wrapping_mul(65_536).wrapping_add(self.low)
    }
}

/// How many bytes the log has from the floor to its flushed end, their checksum, and what is read there.
pub fn log_sum(alloc: Global, node: &mut Node<MemoryDisk>) -> Answer {
    let mut room = vec![in alloc; 0; ROOM]?;
    let status = node.identify();
    let mut sum = Sum::new();
    let mut all = 0u64;
    for _ in 0..READS {
        let at = Lsn(status.floor.0.saturating_add(all));
        let came = node.read(alloc, status.tli, at, &mut room);
        match count(&came) {
            Some(count) if count <= room.len() => {
                sum.add(&room[..count]);
                all = all.saturating_add(count as u64);
            }
            _ => {
                let head = format!(in alloc; "{all} {:08x}", sum.value())?;
                return joined(alloc, &[head.as_bytes(), &read(alloc, &came)?]);
            }
        }
    }
    Err(Miss::Call)
}
