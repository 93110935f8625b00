use crate::records::{FAR, ORIGIN};
use repl_lsn::{Lsn, SegSize, Tli};
use repl_record::{Ident, WalkReason, WalkStep, Walker};
use std::alloc::Global;
use std::io::Read;

/// How many bytes are read at once, so that records are cut anywhere.
const PIECE: usize = 10_007;

/// A walk over a log, and what it found so far.
#[derive(Drop)]
struct LogWalk {
    walker: Walker,
    /// How many records are whole, and where the last of them starts and ends.
    records: u64,
    start: Lsn,
    end: Lsn,
    /// Where the log goes on with no record, and why.
    fault: Option<(Lsn, WalkReason)>,
}

/// What a walk over the log finds that the input gives, of a system with segments of 16 MiB on timeline 1: how many
/// records are whole, where the last one starts and ends, and what is wrong after it.
pub fn walked(alloc: Global, input: &mut impl Read, magic: u64, sysid: u64) -> Option<String> {
    let ident = Ident {
        sysid,
        magic: u16::try_from(magic).ok()?,
        size: SegSize::new(1 << 24)?,
    };
    let mut walk = LogWalk {
        walker: Walker::new(ORIGIN, Lsn(0), ident),
        records: 0,
        start: ORIGIN,
        end: ORIGIN,
        fault: None,
    };
    let mut room = [0; PIECE];
    for _ in 0..u64::MAX {
        let count = input.read(&mut room).ok()?;
        if count == 0 || walk.fault.is_some() {
            break;
        }
        walk.take(&room[..count]);
    }
    let (records, start, end) = (walk.records, walk.start.0, walk.end.0);
    match walk.fault {
        Some((at, why)) => {
            let at = at.0;
            format!(in alloc; "{records} {start:X} {end:X} {at:X} {why}").ok()
        }
        None => format!(in alloc; "{records} {start:X} {end:X}").ok(),
    }
}

impl LogWalk {
    /// Goes over the next piece of the log.
    fn take(&mut self, piece: &[u8]) {
        let mut rest = piece;
        for _ in 0..=piece.len() {
            if self.walker.position().0 >= FAR || rest.len() as u64 >= FAR {
                return;
            }
            match self.walker.step(Tli(1), rest) {
                WalkStep::Whole { start, end, used } => {
                    self.records = self.records.wrapping_add(1);
                    self.start = start;
                    self.end = end;
                    rest = &rest[used..];
                }
                WalkStep::Short => return,
                WalkStep::Bad { at, why } => {
                    self.fault = Some((at, why));
                    return;
                }
            }
        }
    }
}
