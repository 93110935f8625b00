//! A disk in memory, which stays from one row of the subject to the next.
use repl_disk::{Disk, DiskError, MemoryDisk, replace};
use rows_table::{Answer, Call, Miss, debug, joined, number, said, text};
use std::alloc::Global;
use std::mem;

/// The calls that put the old file onto a disk where it is replaced.
const BEFORE: u64 = 2;

pub fn answer(alloc: Global, disk: &mut MemoryDisk, call: &Call) -> Answer {
    if let Some(numbers) = call.words("fresh") {
        return begin(alloc, disk, numbers);
    }
    if let Some([calls]) = call.words("fuse") {
        return fuse(alloc, disk, calls);
    }
    if let Some([way]) = call.words("crash") {
        return crash(alloc, disk, way);
    }
    if let Some([]) = call.words("calls") {
        return debug(alloc, &disk.calls());
    }
    if let Some([way, how, calls]) = call.words("replacing") {
        return replaced(alloc, way, how, calls);
    }
    ask(alloc, disk, call)
}

/// Puts a disk without files here.
fn begin(alloc: Global, disk: &mut MemoryDisk, numbers: &[Vec<u8>]) -> Answer {
    *disk = fresh(alloc, numbers)?;
    said(alloc, "done")
}

fn fuse(alloc: Global, disk: &mut MemoryDisk, calls: &[u8]) -> Answer {
    disk.fuse(number(calls)?);
    said(alloc, "done")
}

fn crash(alloc: Global, disk: &mut MemoryDisk, way: &[u8]) -> Answer {
    let keep = is_keep(way)?;
    let before = mem::replace(disk, MemoryDisk::new(alloc, Vec::new(alloc)));
    *disk = before.crash(keep);
    said(alloc, "done")
}

fn replaced(alloc: Global, way: &[u8], how: &[u8], calls: &[u8]) -> Answer {
    replacing(alloc, is_keep(way)?, text(how)?, number(calls)?)
}

/// A disk without files, whose calls with these numbers fail.
fn fresh(alloc: Global, numbers: &[Vec<u8>]) -> Result<MemoryDisk, Miss> {
    let mut failing = Vec::new(alloc);
    for word in numbers {
        failing.push(number(word)?)?;
    }
    Ok(MemoryDisk::new(alloc, failing))
}

/// Whether a crash keeps what was not synced.
pub fn is_keep(way: &[u8]) -> Result<bool, Miss> {
    match text(way)? {
        "keep" => Ok(true),
        "lose" => Ok(false),
        _ => Err(Miss::Words),
    }
}

/// Makes a call of the disk, and says how it was answered.
fn ask<D: Disk>(alloc: Global, disk: &mut D, call: &Call) -> Answer {
    if let Some([name]) = call.words("size") {
        return size(alloc, disk, name);
    }
    if let Some([name, at, room]) = call.words("read") {
        return read_of(alloc, disk, name, at, room);
    }
    if let Some([name, at, bytes]) = call.words("write") {
        return write(alloc, disk, name, at, bytes);
    }
    if let Some([name]) = call.words("sync") {
        return sync(alloc, disk, name);
    }
    if let Some([from, to]) = call.words("rename") {
        return rename(alloc, disk, from, to);
    }
    ask_more(alloc, disk, call)
}

fn ask_more<D: Disk>(alloc: Global, disk: &mut D, call: &Call) -> Answer {
    if let Some([name]) = call.words("remove") {
        return remove(alloc, disk, name);
    }
    if let Some([]) = call.words("names") {
        return names(alloc, disk);
    }
    if let Some([name, bytes]) = call.words("replace") {
        return put(alloc, disk, name, bytes);
    }
    Err(Miss::Call)
}

fn size<D: Disk>(alloc: Global, disk: &mut D, name: &[u8]) -> Answer {
    match disk.size(text(name)?) {
        Ok(size) => debug(alloc, &size),
        Err(error) => debug(alloc, &error),
    }
}

fn read_of<D: Disk>(alloc: Global, disk: &mut D, name: &[u8], at: &[u8], room: &[u8]) -> Answer {
    read(alloc, disk, text(name)?, number(at)?, number(room)?)
}

fn write<D: Disk>(alloc: Global, disk: &mut D, name: &[u8], at: &[u8], bytes: &[u8]) -> Answer {
    done(alloc, disk.write_at(text(name)?, number(at)?, bytes))
}

fn sync<D: Disk>(alloc: Global, disk: &mut D, name: &[u8]) -> Answer {
    done(alloc, disk.sync(text(name)?))
}

fn rename<D: Disk>(alloc: Global, disk: &mut D, from: &[u8], to: &[u8]) -> Answer {
    done(alloc, disk.rename(text(from)?, text(to)?))
}

fn remove<D: Disk>(alloc: Global, disk: &mut D, name: &[u8]) -> Answer {
    done(alloc, disk.remove(text(name)?))
}

fn names<D: Disk>(alloc: Global, disk: &mut D) -> Answer {
    match disk.names() {
        Ok(names) => debug(alloc, &names),
        Err(error) => debug(alloc, &error),
    }
}

fn put<D: Disk>(alloc: Global, disk: &mut D, name: &[u8], bytes: &[u8]) -> Answer {
    done(alloc, replace(alloc, disk, text(name)?, bytes))
}

fn done(alloc: Global, answer: Result<(), DiskError>) -> Answer {
    match answer {
        Ok(()) => said(alloc, "done"),
        Err(error) => debug(alloc, &error),
    }
}

/// How many bytes were read, and the room, which was full of `-` before.
fn read<D: Disk>(alloc: Global, disk: &mut D, name: &str, at: u64, room: u64) -> Answer {
    if room > 1 << 20 {
        return Err(Miss::Words);
    }
    let mut room = vec![in alloc; b'-'; room as usize]?;
    match disk.read_at(name, at, &mut room) {
        Ok(count) => {
            let head = format!(in alloc; "{count}")?;
            joined(alloc, &[head.as_bytes(), &room])
        }
        Err(error) => debug(alloc, &error),
    }
}

/// A disk with the synced file `a` of the bytes `old`, on which `a` is replaced by `newer` and the program crashes: how
/// the replacement ended, and what `a` is then. The replacement's call of this number fails, or the disk fails after so
/// many calls.
fn replacing(alloc: Global, keep: bool, how: &str, calls: u64) -> Answer {
    let mut disk = failing(alloc, how, calls, BEFORE)?;
    let old = put_old(&mut disk);
    if old.is_err() {
        return done(alloc, old);
    }
    if how == "fuse" {
        disk.fuse(calls);
    }
    let ended = done(alloc, replace(alloc, &mut disk, "a", b"newer"))?;
    crashed(alloc, disk, keep, &ended)
}

/// A disk without files, on which the call of this number after those before fails where that is the way.
pub fn failing(alloc: Global, how: &str, calls: u64, before: u64) -> Result<MemoryDisk, Miss> {
    let mut failing = Vec::new(alloc);
    match how {
        "failing" => failing.push(calls.saturating_add(before))?,
        "fuse" => {}
        _ => return Err(Miss::Words),
    }
    Ok(MemoryDisk::new(alloc, failing))
}

/// How the replacement ended, and what `a` is after a crash.
fn crashed(alloc: Global, disk: MemoryDisk, keep: bool, ended: &[u8]) -> Answer {
    let mut after = disk.crash(keep);
    joined(alloc, &[ended, &read(alloc, &mut after, "a", 0, 5)?])
}

fn put_old(disk: &mut MemoryDisk) -> Result<(), DiskError> {
    disk.write_at("a", 0, b"old")?;
    disk.sync("a")
}
