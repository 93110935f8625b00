ghost use Rattle.std.specs.Prelude.{◌≡◌, ◌%◌, ◌^◌, ◌≤◌, IfSome};

use bytes::Bytes;
use repl_lsn::{Lsn, SegSize, Tli};
use repl_record::{Ident, RecordIn, WalkStep, Walker, crc32c, lay_out};
use std::alloc::Global;

/// Where the logs begin.
pub const ORIGIN: Lsn = Lsn(0x100_0000);

/// How many records a log has that is walked.
const RECORDS: usize = 128;

/// A position that no log here reaches.
pub const FAR: u64 = 1 << 62;

/// The checksum of so many zeros, each time going on from the one before.
pub fn checksums(alloc: Global, bytes: usize, rounds: u64) -> Option<u64> {
    let zeros = vec![in alloc; 0; bytes].ok()?;
    let mut sum = 0;
    for _ in 0..rounds {
        sum = crc32c(sum, zeros.as_slice());
    }
    Some(u64::from(sum))
}

/// How many records a walk finds in a log of records with bodies of so many bytes, the last of so many walks.
pub fn walks(alloc: Global, body: usize, rounds: u64) -> Option<u64> {
    let item = zeros(alloc, body)?;
    let ident = ident()?;
    let mut log = Vec::new(alloc);
    let mut prev = Lsn(0);
    for _ in 0..RECORDS {
        let at = position_past(log.as_slice())?;
        let laid = lay_out(alloc, at, prev, Tli(1), &ident, &item).ok()?;
        log.extend_from_slice(laid.bytes.as_slice()).ok()?;
        prev = laid.start;
    }
    let mut found = 0;
    for _ in 0..rounds {
        found = whole_records(ident, log.as_slice());
    }
    Some(found)
}

/// How many bytes a record takes in the log whose body has so many, laid out so many times.
pub fn layouts(alloc: Global, body: usize, rounds: u64) -> Option<u64> {
    let item = zeros(alloc, body)?;
    let ident = ident()?;
    let mut taken = 0;
    for _ in 0..rounds {
        let laid = lay_out(alloc, ORIGIN, Lsn(0), Tli(1), &ident, &item).ok()?;
        taken = laid.bytes.len() as u64;
    }
    Some(taken)
}

/// How many records a walker finds in the log.
fn whole_records(ident: Ident, log: &[u8]) -> u64 {
    let mut walker = Walker::new(ORIGIN, Lsn(0), ident);
    let mut rest = log;
    let mut found: u64 = 0;
    for _ in 0..log.len() {
        if walker.position().0 >= FAR || rest.len() as u64 >= FAR {
            break;
        }
        let WalkStep::Whole { used, .. } = walker.step(Tli(1), rest) else {
            break;
        };
        rest = &rest[used..];
        found = found.wrapping_add(1);
    }
    found
}

/// The position after these bytes of a log, at which a record may be laid.
fn position_past(log: &[u8]) -> Option<Lsn>
    ensures { IfSome result (λ at. (at % 8 ≡ 0) × (at ≤ 2 ^ 62)) }
{
    let at = ORIGIN.0.checked_add(log.len() as u64)?;
    if at % 8 == 0 && at <= FAR {
        Some(Lsn(at))
    } else {
        None
    }
}

fn ident() -> Option<Ident> {
    Some(Ident {
        sysid: 7,
        magic: 0xd116,
        size: SegSize::new(1 << 24)?,
    })
}

/// A record with a body of so many zeros.
fn zeros(alloc: Global, body: usize) -> Option<RecordIn> {
    let bytes = vec![in alloc; 0; body].ok()?;
    Some(RecordIn {
        xid: 0,
        info: 0,
        rmid: 0,
        body: Bytes::from_vec(bytes).ok()?,
    })
}
