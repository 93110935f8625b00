//! The program's commands on one store: the disk stays from row to row.
use crate::tools::{owned, told};
use repl_disk::{Disk, DiskError, MemoryDisk};
use repl_io::SteadyLink;
use repl_top::{disk_use, folder_of, run_tool};
use rows_table::{Answer, Call, Miss, debug, joined, number, said, text};
use std::alloc::Global;
use std::mem;

pub fn answer(alloc: Global, disk: &mut MemoryDisk, call: &Call) -> Answer {
    if let Some(words) = call.words("run") {
        return ran(alloc, disk, words);
    }
    if let Some(words) = call.words("folder") {
        return folder(alloc, words);
    }
    if let Some(numbers) = call.words("fresh") {
        return fresh(alloc, disk, numbers);
    }
    if let Some([name, place, bytes]) = call.words("change") {
        return match change(disk, text(name)?, number(place)?, bytes) {
            Ok(()) => said(alloc, "done"),
            Err(error) => debug(alloc, &error),
        };
    }
    Err(Miss::Call)
}

/// A run with these words: its status, and what was written.
fn ran(alloc: Global, disk: &mut MemoryDisk, words: &[Vec<u8>]) -> Answer {
    let words = owned(alloc, words)?;
    let mut input = SteadyLink::new(alloc, Vec::new(alloc))?;
    let mut out = SteadyLink::new(alloc, Vec::new(alloc))?;
    let taken = mem::replace(disk, MemoryDisk::new(alloc, Vec::new(alloc)));
    let (status, back) = run_tool(alloc, &words, &mut input, &mut out, taken);
    *disk = back;
    told(alloc, &status, out.written())
}

/// The folder that the words name, and what they ask of it.
fn folder(alloc: Global, words: &[Vec<u8>]) -> Answer {
    let words = owned(alloc, words)?;
    let asked = debug(alloc, &disk_use(&words))?;
    joined(alloc, &[folder_of(&words).as_bytes(), &asked])
}

/// A disk without files, whose calls with these numbers fail.
fn fresh(alloc: Global, disk: &mut MemoryDisk, numbers: &[Vec<u8>]) -> Answer {
    let mut failing = Vec::new(alloc);
    for word in numbers {
        failing.push(number(word)?)?;
    }
    *disk = MemoryDisk::new(alloc, failing);
    said(alloc, "done")
}

/// Lets a file have these bytes at this place, and makes them certain.
fn change(disk: &mut MemoryDisk, name: &str, place: u64, bytes: &[u8]) -> Result<(), DiskError> {
    disk.write_at(name, place, bytes)?;
    disk.sync(name)
}
