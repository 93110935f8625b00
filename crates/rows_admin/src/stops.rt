//! `init`, stopped at each of its calls of the disk.
use crate::tools::{init, status, take_disk};
use repl_disk::MemoryDisk;
use rows_table::{Answer, Miss, Tally, joined, text};
use std::alloc::Global;

/// More calls of the disk than `init` makes.
const STOPS: u64 = 64;

/// Makes a store on a disk without files, and stops at the first call of the disk, then at the second, and so on, and at
/// last not at all. Each time a crash follows. Answers how the making ended and what `status` tells then, and of equal
/// answers in a row how many they are. The words are those of `init`.
pub fn answer(alloc: Global, how: &[u8], way: &[u8], words: &[Vec<u8>]) -> Answer {
    let keep = is_keep(way)?;
    let mut told = Tally::new(alloc);
    for number in 0..calls_made(alloc, words)? {
        let came = stopped(alloc, disk_that_stops(alloc, how, number)?, keep, words)?;
        told.take(alloc, came)?;
    }
    let never = MemoryDisk::new(alloc, Vec::new(alloc));
    let came = stopped(alloc, never, keep, words)?;
    told.take(alloc, came)?;
    told.end(alloc)
}

/// How many calls of the disk `init` makes.
fn calls_made(alloc: Global, words: &[Vec<u8>]) -> Result<u64, Miss> {
    let mut disk = MemoryDisk::new(alloc, Vec::new(alloc));
    init(alloc, &mut disk, words)?;
    if disk.calls() > STOPS {
        return Err(Miss::Words);
    }
    Ok(disk.calls())
}

/// A disk without files whose call after so many fails, or, by `fuse`, each from there on.
fn disk_that_stops(alloc: Global, how: &[u8], passed: u64) -> Result<MemoryDisk, Miss> {
    let mut failing = Vec::new(alloc);
    match text(how)? {
        "failing" => {
            failing.push(passed.saturating_add(1))?;
            Ok(MemoryDisk::new(alloc, failing))
        }
        "fuse" => {
            let mut disk = MemoryDisk::new(alloc, failing);
            disk.fuse(passed);
            Ok(disk)
        }
        _ => Err(Miss::Words),
    }
}

/// How the making ends on this disk, and what `status` tells after a crash.
fn stopped(alloc: Global, disk: MemoryDisk, keep: bool, words: &[Vec<u8>]) -> Answer {
    let mut disk = disk;
    let ended = init(alloc, &mut disk, words)?;
    let mut after = take_disk(alloc, &mut disk).crash(keep);
    let told = status(alloc, &mut after)?;
    joined(alloc, &[line(&ended), line(&told)])
}

/// The answer without a line feed at its end.
fn line(answer: &[u8]) -> &[u8] {
    answer.strip_suffix(b"\n").unwrap_or(answer)
}

/// Whether a crash keeps what was not synced.
fn is_keep(way: &[u8]) -> Result<bool, Miss> {
    match text(way)? {
        "keep" => Ok(true),
        "lose" => Ok(false),
        _ => Err(Miss::Words),
    }
}
