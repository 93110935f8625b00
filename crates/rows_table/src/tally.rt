//! Answers that come one after another, of which equal ones in a row are counted.
use crate::miss::{Answer, Miss};
use std::alloc::Global;

/// Answers, each with how often it came in a row.
#[derive(Drop)]
pub struct Tally {
    text: Vec<u8>,
    last: Vec<u8>,
    count: u64,
}

impl Tally {
    pub fn new(alloc: Global) -> Tally {
        Tally {
            text: Vec::new(alloc),
            last: Vec::new(alloc),
            count: 0,
        }
    }

    /// Takes the next answer.
    pub fn take(&mut self, alloc: Global, came: Vec<u8>) -> Result<(), Miss> {
        if self.count > 0 && came != self.last {
            self.put(alloc)?;
            self.text.extend_from_slice(b", ")?;
            self.count = 0;
        }
        self.last = came;
        self.count = self.count.saturating_add(1);
        Ok(())
    }

    /// Puts the last answer after the others.
    fn put(&mut self, alloc: Global) -> Result<(), Miss> {
        let head = format!(in alloc; "{} of ", self.count)?;
        self.text.extend_from_slice(head.as_bytes())?;
        self.text.extend_from_slice(&self.last)?;
        Ok(())
    }

    /// The answers so far, with a comma and a blank between them.
    pub fn end(mut self, alloc: Global) -> Answer {
        self.put(alloc)?;
        Ok(self.text)
    }
}
