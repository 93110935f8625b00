//! A call that is stopped at each of its calls of the disk.
use crate::calls;
use crate::place::Place;
use crate::told::known;
use repl_control::Role;
use rows_table::{Answer, Call, Miss, Tally, joined, text};
use std::alloc::Global;

/// More calls of the disk than a call of a store makes here.
const STOPS: u64 = 64;

/// Where a call is stopped.
#[derive(Clone, Copy)]
enum Stop {
    /// One call of the disk fails.
    Failing(u64),
    /// So many pass, and then each fails.
    Fuse(u64),
    /// It is not.
    Never,
}

/// Makes calls, which stand between `:`, on a disk without files, and stops the last one at its first call of the disk,
/// then at the second, and so on, and at last not at all. Each time a crash follows, and the store is mounted again. Answers
/// how the call ended, and the role, the timeline, the floor, the flushed end and the greatest known timeline of the store
/// that was mounted, and of equal answers in a row how many they are.
pub fn answer(alloc: Global, how: &[u8], way: &[u8], words: &[Vec<u8>]) -> Answer {
    let keep = calls::is_keep(way)?;
    let made = calls_made(alloc, words)?;
    let mut told = Tally::new(alloc);
    for number in 0..made {
        let came = stopped(alloc, stop_at(how, number)?, keep, words)?;
        told.take(alloc, came)?;
    }
    let came = stopped(alloc, Stop::Never, keep, words)?;
    told.take(alloc, came)?;
    told.end(alloc)
}

fn stop_at(how: &[u8], number: u64) -> Result<Stop, Miss> {
    match text(how)? {
        "failing" => Ok(Stop::Failing(number)),
        "fuse" => Ok(Stop::Fuse(number)),
        _ => Err(Miss::Words),
    }
}

/// How many calls of the disk the last call makes.
fn calls_made(alloc: Global, words: &[Vec<u8>]) -> Result<u64, Miss> {
    let (mut place, last) = prepared(alloc, Stop::Never, words)?;
    let before = place.disk().calls();
    make(alloc, &mut place, last)?;
    let made = place.disk().calls().saturating_sub(before);
    if made > STOPS {
        return Err(Miss::Words);
    }
    Ok(made)
}

/// How the last call ends with this stop, and what is mounted after a crash.
fn stopped(alloc: Global, stop: Stop, keep: bool, words: &[Vec<u8>]) -> Answer {
    let (mut place, last) = prepared(alloc, stop, words)?;
    let ended = make(alloc, &mut place, last)?;
    let after = place.take_disk(alloc).crash(keep);
    let mut place = Place::Bare(after);
    let opened = make(alloc, &mut place, &[b"mount".to_vec(alloc)?])?;
    if opened.as_slice() != b"done".as_slice() {
        return joined(alloc, &[&ended, &opened]);
    }
    joined(alloc, &[&ended, &mounted(alloc, &mut place)?])
}

/// The role, the timeline, the floor, the flushed end and the greatest known timeline.
fn mounted(alloc: Global, place: &mut Place) -> Answer {
    let store = place.store()?;
    let known = known(alloc, store)?;
    let status = store.status();
    let role = match status.role {
        Role::Primary => "primary",
        Role::Standby => "standby",
    };
    let (tli, floor, flushed) = (status.tli.number(), status.floor, status.flushed);
    let head = format!(in alloc; "{role} {tli} {floor} {flushed}")?;
    joined(alloc, &[head.as_bytes(), &known])
}

/// A disk on which the calls before the last one were made, that stops then, and the words of the last.
fn prepared<'a>(
    alloc: Global,
    stop: Stop,
    words: &'a [Vec<u8>],
) -> Result<(Place, &'a [Vec<u8>]), Miss> {
    let mut place = Place::fresh(alloc, Vec::new(alloc));
    let last = before_last(alloc, &mut place, words)?;
    match stop {
        Stop::Never => Ok((place, last)),
        Stop::Fuse(calls) => {
            place.disk().fuse(calls);
            Ok((place, last))
        }
        Stop::Failing(calls) => {
            let due = place.disk().calls().saturating_add(calls).saturating_add(1);
            let mut failing = Vec::new(alloc);
            failing.push(due)?;
            let mut place = Place::fresh(alloc, failing);
            let last = before_last(alloc, &mut place, words)?;
            Ok((place, last))
        }
    }
}

/// Makes the calls between `:` but the last, and answers the words of that.
fn before_last<'a>(
    alloc: Global,
    place: &mut Place,
    words: &'a [Vec<u8>],
) -> Result<&'a [Vec<u8>], Miss> {
    let mut begin = 0;
    for (at, word) in words.iter().enumerate() {
        if word.as_slice() == b":".as_slice() {
            make(alloc, place, words.get(begin..at).ok_or(Miss::Words)?)?;
            begin = at.saturating_add(1);
        }
    }
    words.get(begin..).ok_or(Miss::Words)
}

/// Makes the call of these words.
fn make(alloc: Global, place: &mut Place, words: &[Vec<u8>]) -> Answer {
    let [name, words @ ..] = words else {
        return Err(Miss::Words);
    };
    calls::answer(alloc, place, &Call::new(text(name)?, words))
}
