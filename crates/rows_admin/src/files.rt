//! Files of the disk, read and put whole.
use repl_disk::{Disk, DiskError, MemoryDisk};
use rows_table::{Answer, Call, Miss, debug, number, said, text};
use std::alloc::Global;

/// How large a file may be: as large as a segment.
const LARGEST: u64 = 1 << 24;

/// How many bytes of a file a row shows.
const SHOWN: u64 = 1 << 12;

pub fn answer(alloc: Global, disk: &mut MemoryDisk, call: &Call) -> Answer {
    if let Some([name]) = call.words("file") {
        return whole_file(alloc, disk, text(name)?);
    }
    if let Some([name, at, count]) = call.words("bytes") {
        return part(alloc, disk, text(name)?, number(at)?, number(count)?);
    }
    if let Some([name]) = call.words("size") {
        return debug(alloc, &read(disk.size(text(name)?))?);
    }
    if let Some([]) = call.words("names") {
        return debug(alloc, &read(disk.names())?);
    }
    if let Some([name, bytes]) = call.words("put") {
        put_file(disk, text(name)?, bytes)?;
        return said(alloc, "done");
    }
    Err(Miss::Call)
}

/// What the disk answers; where it answers none, the row has no answer.
pub fn read<T>(answer: Result<T, DiskError>) -> Result<T, Miss> {
    match answer {
        Ok(value) => Ok(value),
        Err(DiskError::Memory) => Err(Miss::Memory),
        Err(_) => Err(Miss::Words),
    }
}

/// The bytes of a file.
pub fn whole_file(alloc: Global, disk: &mut MemoryDisk, name: &str) -> Answer {
    let size = read(disk.size(name))?;
    if size > LARGEST {
        return Err(Miss::Words);
    }
    let mut room = vec![in alloc; 0; size as usize]?;
    fill(disk, name, 0, &mut room)?;
    Ok(room)
}

/// Some bytes of a file, which it has.
fn part(alloc: Global, disk: &mut MemoryDisk, name: &str, at: u64, count: u64) -> Answer {
    if count > SHOWN {
        return Err(Miss::Words);
    }
    let mut room = vec![in alloc; 0; count as usize]?;
    fill(disk, name, at, &mut room)?;
    Ok(room)
}

/// Fills the room with the file's bytes from this place on.
pub fn fill(disk: &mut MemoryDisk, name: &str, at: u64, room: &mut [u8]) -> Result<(), Miss> {
    let wanted = room.len();
    if read(disk.read_at(name, at, room))? != wanted {
        return Err(Miss::Words);
    }
    Ok(())
}

/// Puts bytes into a file from this place on, and makes them certain.
pub fn put_at(disk: &mut MemoryDisk, name: &str, at: u64, bytes: &[u8]) -> Result<(), Miss> {
    read(disk.write_at(name, at, bytes))?;
    read(disk.sync(name))
}

/// Puts a file with these bytes alone there, and makes it certain.
pub fn put_file(disk: &mut MemoryDisk, name: &str, bytes: &[u8]) -> Result<(), Miss> {
    remove(disk, name)?;
    put_at(disk, name, 0, bytes)
}

/// Removes the file, where it is there.
pub fn remove(disk: &mut MemoryDisk, name: &str) -> Result<(), Miss> {
    match disk.remove(name) {
        Ok(()) | Err(DiskError::Missing) => Ok(()),
        Err(error) => read(Err(error)),
    }
}
