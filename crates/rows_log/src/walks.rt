//! Walks over the log.
use crate::records::{ident, lay, place};
use repl_lsn::{Lsn, Tli};
use repl_record::{BODY_LIMIT, WalkStep, Walker};
use repl_walk::{Rest, RestStep, WalkFault, rest_on_page, walk, walk_past_any};
use rows_table::{Answer, Call, Miss, debug, number, said};
use std::alloc::{AllocError, Global};

/// Where the logs begin.
const ORIGIN: u64 = 0x100_0000;

pub fn answer(alloc: Global, call: &Call) -> Answer {
    if let Some(words) = call.words("cuts") {
        return cuts_of(alloc, words);
    }
    if let Some([size, words @ ..]) = call.words("pieces") {
        return pieces_of(alloc, size, words);
    }
    if let Some([place, byte, shown, words @ ..]) = call.words("fault") {
        return fault_of(alloc, place, byte, shown, words);
    }
    if let Some([size, shown, words @ ..]) = call.words("walked") {
        return walked_of(alloc, size, shown, words);
    }
    if let Some([size, place, byte, words @ ..]) = call.words("walked_fault") {
        return walked_fault(alloc, size, place, byte, words);
    }
    if let Some([page, words @ ..]) = call.words("past") {
        return past_of(alloc, page, words);
    }
    Err(Miss::Call)
}

fn cuts_of(alloc: Global, words: &[Vec<u8>]) -> Answer {
    cuts(alloc, &log(alloc, words)?)
}

fn pieces_of(alloc: Global, size: &[u8], words: &[Vec<u8>]) -> Answer {
    let size = number(size)?;
    pieces(alloc, &log(alloc, words)?, size)
}

fn fault_of(alloc: Global, place: &[u8], byte: &[u8], shown: &[u8], words: &[Vec<u8>]) -> Answer {
    let (place, byte, shown) = (number(place)?, number(byte)?, number(shown)?);
    fault(alloc, &log(alloc, words)?, place, byte, shown)
}

fn walked_of(alloc: Global, size: &[u8], shown: &[u8], words: &[Vec<u8>]) -> Answer {
    let (size, shown) = (number(size)?, number(shown)?);
    let log = log(alloc, words)?;
    match log.get(..shown as usize) {
        Some(front) => walked(alloc, front, size),
        None => Err(Miss::Words),
    }
}

fn past_of(alloc: Global, page: &[u8], words: &[Vec<u8>]) -> Answer {
    let from = number(page)?.saturating_mul(8192);
    match log(alloc, words)?.get(from as usize..) {
        Some(rest) => past(alloc, rest, ORIGIN.saturating_add(from)),
        None => Err(Miss::Words),
    }
}

fn walked_fault(
    alloc: Global,
    size: &[u8],
    place: &[u8],
    byte: &[u8],
    words: &[Vec<u8>],
) -> Answer {
    let (size, place, byte) = (number(size)?, number(place)?, number(byte)?);
    let mut log = log(alloc, words)?;
    match log.get_mut(place as usize) {
        Some(wrong) if byte < 256 => *wrong = byte as u8,
        _ => return Err(Miss::Words),
    }
    walked(alloc, &log, size)
}

/// A log of records with bodies of so many zeros.
fn log(alloc: Global, lengths: &[Vec<u8>]) -> Result<Vec<u8>, Miss> {
    let mut log = Vec::new(alloc);
    let mut prev = Lsn(0);
    for length in lengths {
        let length = number(length)?;
        if length > BODY_LIMIT as u64 {
            return Err(Miss::Words);
        }
        let body = vec![in alloc; 0; length as usize]?;
        let at = place(ORIGIN.saturating_add(log.len() as u64))?;
        let Ok(laid) = lay(alloc, at, prev, 0, &body)? else {
            return Err(Miss::Memory);
        };
        log.extend_from_slice(laid.bytes.as_slice())?;
        prev = laid.start;
    }
    Ok(log)
}

/// A walk over the log, and where the records start and end that it found.
#[derive(Drop)]
struct Walk {
    walker: Walker,
    told: Vec<u8>,
}

impl Walk {
    fn new(alloc: Global) -> Result<Walk, Miss> {
        Ok(Walk {
            walker: Walker::new(place(ORIGIN)?, Lsn(0), ident()?),
            told: Vec::new(alloc),
        })
    }

    /// Goes over a piece of the log, and answers the last answer of the walker.
    fn take(&mut self, alloc: Global, piece: &[u8]) -> Result<WalkStep, Miss> {
        let mut rest = piece;
        for _ in 0..=piece.len() {
            if self.walker.position().0 >= 1 << 62 || rest.len() as u64 >= 1 << 62 {
                return Err(Miss::Words);
            }
            let answer = self.walker.step(Tli(1), rest);
            let WalkStep::Whole { start, end, used } = answer else {
                return Ok(answer);
            };
            self.tell(alloc, start, end)?;
            rest = &rest[used..];
        }
        Err(Miss::Call)
    }

    fn tell(&mut self, alloc: Global, start: Lsn, end: Lsn) -> Result<(), AllocError> {
        let line = format!(in alloc; "0x{:x}-0x{:x} ", start.0, end.0)?;
        self.told.extend_from_slice(line.as_bytes())
    }

    /// The records, and the last answer.
    fn end(mut self, alloc: Global, last: WalkStep) -> Answer {
        self.told
            .extend_from_slice(format!(in alloc; "{last:?}")?.as_bytes())?;
        Ok(self.told)
    }
}

/// What a walk over the log in two pieces finds.
fn cut(alloc: Global, log: &[u8], at: usize) -> Answer {
    let mut walk = Walk::new(alloc)?;
    let (first, second) = log.split_at(at.min(log.len()));
    let answer = walk.take(alloc, first)?;
    if answer != WalkStep::Short {
        return walk.end(alloc, answer);
    }
    let answer = walk.take(alloc, second)?;
    walk.end(alloc, answer)
}

/// What a walk in two pieces finds, where it is the same wherever the first ends.
fn cuts(alloc: Global, log: &[u8]) -> Answer {
    let whole = cut(alloc, log, 0)?;
    for at in 0..=log.len() {
        if cut(alloc, log, at)? != whole {
            return Ok(format!(in alloc; "another at {at}")?.into_bytes());
        }
    }
    let mut told = format!(in alloc; "each cut up to {}: ", log.len())?.into_bytes();
    told.extend_from_slice(&whole)?;
    Ok(told)
}

/// What a walk in pieces of this size finds, none of which shows a fault.
fn pieces(alloc: Global, log: &[u8], size: u64) -> Answer {
    let Ok(size) = usize::try_from(size.max(1)) else {
        return Err(Miss::Words);
    };
    let mut walk = Walk::new(alloc)?;
    for piece in log.chunks(size) {
        let answer = walk.take(alloc, piece)?;
        if answer != WalkStep::Short {
            return walk.end(alloc, answer);
        }
    }
    walk.end(alloc, WalkStep::Short)
}

/// What a walk answers with the first of the bytes that show the fault, where the byte at the place is set to this one:
/// nothing is wrong before, and it is told once more with the rest of the log.
fn fault(alloc: Global, log: &[u8], place: u64, byte: u64, shown: u64) -> Answer {
    let mut wrong = log.to_vec(alloc)?;
    if place >= wrong.len() as u64 || byte > 255 || shown == 0 || shown >= wrong.len() as u64 {
        return Err(Miss::Words);
    }
    wrong[place as usize] = byte as u8;
    let (shown, mut walk) = (shown as usize, Walk::new(alloc)?);
    if walk.take(alloc, &wrong[..shown - 1])? != WalkStep::Short {
        return said(alloc, "another answer before");
    }
    let answer = walk.take(alloc, &wrong[shown - 1..shown])?;
    if walk.take(alloc, &wrong[shown..])? != answer {
        return said(alloc, "another answer past");
    }
    debug(alloc, &answer)
}

/// Where the last whole record starts and ends that a walk over the log in whole pieces of this size finds, and the fault
/// that it meets.
fn walked(alloc: Global, log: &[u8], size: u64) -> Answer {
    let Ok(size) = usize::try_from(size.max(1)) else {
        return Err(Miss::Words);
    };
    let mut walker = Walker::new(place(ORIGIN)?, Lsn(0), ident()?);
    let mut answer = Ok(());
    for piece in log.chunks(size) {
        if walker.position().0 >= 1 << 62 || piece.len() as u64 >= 1 << 62 {
            return Err(Miss::Words);
        }
        answer = walk(&mut walker, Tli(1), piece);
        if answer.is_err() {
            break;
        }
    }
    told(alloc, &walker, answer)
}

fn told(alloc: Global, walker: &Walker, answer: Result<(), WalkFault>) -> Answer {
    let (start, end) = (walker.last_start().0, walker.last_end().0);
    match answer {
        Ok(()) => Ok(format!(in alloc; "0x{start:x}-0x{end:x}")?.into_bytes()),
        Err(fault) => Ok(format!(in alloc; "0x{start:x}-0x{end:x} {fault}")?.into_bytes()),
    }
}

/// What a log has of which all before this page is gone: how many bytes of a record are to come, where they end, and where
/// the last whole record after them starts and ends.
fn past(alloc: Global, log: &[u8], from: u64) -> Answer {
    if log.len() < 24 {
        return Err(Miss::Words);
    }
    let left = rest_on_page(log);
    let (end, used) = rest(log, from, left)?;
    let Some(records) = log.get(used..) else {
        return Err(Miss::Call);
    };
    let mut walker = Walker::new(place(end.0)?, Lsn(0), ident()?);
    if walker.position().0 >= 1 << 62 || records.len() as u64 >= 1 << 62 {
        return Err(Miss::Words);
    }
    let answer = walk_past_any(&mut walker, end, Tli(1), records);
    let mut line = format!(in alloc; "{left} 0x{:x} ", end.0)?.into_bytes();
    line.extend_from_slice(&told(alloc, &walker, answer)?)?;
    Ok(line)
}

/// Where the rest of a record ends with which the page begins, and how many bytes it has; none where none goes on there.
fn rest(log: &[u8], from: u64, left: u32) -> Result<(Lsn, usize), Miss> {
    if from % 8192 != 0 || from >= 1 << 62 || log.len() as u64 >= 1 << 62 {
        return Err(Miss::Words);
    }
    if left == 0 {
        return Ok((Lsn(from), 0));
    }
    match Rest::new(Lsn(from), ident()?, left).step(Tli(1), log) {
        RestStep::Whole { end, used } => Ok((end, used)),
        _ => Err(Miss::Call),
    }
}
