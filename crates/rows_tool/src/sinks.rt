ghost use Rattle.std.specs.Prelude.{Some};

use repl_effects::Count;
use repl_io::{Put, Sink};
use std::alloc::Global;

/// A sink that takes one byte at a time, and no more than so many.
#[derive(Drop)]
pub struct ByteSink {
    taken: Vec<u8>,
    limit: u64,
    writes: u64,
    faults: Count,
    wants: Count,
}

impl ByteSink {
    pub fn new(alloc: Global, limit: u64) -> ByteSink {
        ByteSink {
            taken: Vec::new(alloc),
            limit,
            writes: 0,
            faults: Count::new(),
            wants: Count::new(),
        }
    }

    /// The bytes that it took.
    pub fn taken(&self) -> &[u8] {
        &self.taken
    }

    /// How often it was written to.
    pub fn writes(&self) -> u64 {
        self.writes
    }
}

impl Sink for ByteSink {
    ghost sink = { λ s. record { written = Some s.taken.items; faults = s.faults; wants = s.wants } };

    fn write(&mut self, piece: &[u8]) -> Put {
        self.writes = self.writes.saturating_add(1);
        if self.taken.len() as u64 >= self.limit {
            self.faults.raise();
            return Put::Failed;
        }
        match self.taken.push(piece[0]) {
            Ok(()) => Put::Wrote(1),
            Err(_) => {
                self.wants.raise();
                Put::Memory
            }
        }
    }
}
