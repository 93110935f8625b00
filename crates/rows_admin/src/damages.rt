//! Damage that is done to a file: the store is judged with it, and the file is put back.
use crate::files::{fill, put_at, put_file, remove, whole_file};
use crate::tools::check;
use repl_disk::MemoryDisk;
use rows_table::{Answer, Miss};
use std::alloc::Global;

/// Other bytes stand in the file from this place on. They are others, and it has as many there.
pub fn changed(alloc: Global, disk: &mut MemoryDisk, name: &str, at: u64, bytes: &[u8]) -> Answer {
    let mut before = vec![in alloc; 0; bytes.len()]?;
    fill(disk, name, at, &mut before)?;
    if before.as_slice() == bytes {
        return Err(Miss::Words);
    }
    put_at(disk, name, at, bytes)?;
    let answer = check(alloc, disk);
    put_at(disk, name, at, &before)?;
    answer
}

/// The file ends after so many bytes. It has more.
pub fn cut(alloc: Global, disk: &mut MemoryDisk, name: &str, size: u64) -> Answer {
    let before = whole_file(alloc, disk, name)?;
    if size >= before.as_slice().len() as u64 {
        return Err(Miss::Words);
    }
    let front = before.get(..size as usize).ok_or(Miss::Words)?;
    put_file(disk, name, front)?;
    let answer = check(alloc, disk);
    put_file(disk, name, &before)?;
    answer
}

/// More bytes stand after the file's.
pub fn past(alloc: Global, disk: &mut MemoryDisk, name: &str, bytes: &[u8]) -> Answer {
    let before = whole_file(alloc, disk, name)?;
    put_at(disk, name, before.as_slice().len() as u64, bytes)?;
    let answer = check(alloc, disk);
    put_file(disk, name, &before)?;
    answer
}

/// The file has these bytes in place of its own.
pub fn instead(alloc: Global, disk: &mut MemoryDisk, name: &str, bytes: &[u8]) -> Answer {
    let before = whole_file(alloc, disk, name)?;
    put_file(disk, name, bytes)?;
    let answer = check(alloc, disk);
    put_file(disk, name, &before)?;
    answer
}

/// The file is gone.
pub fn gone(alloc: Global, disk: &mut MemoryDisk, name: &str) -> Answer {
    let before = whole_file(alloc, disk, name)?;
    remove(disk, name)?;
    let answer = check(alloc, disk);
    put_file(disk, name, &before)?;
    answer
}
