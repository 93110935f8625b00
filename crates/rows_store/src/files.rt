//! Files of the disk, as rows change and show them.
use crate::told::done;
use repl_disk::{Disk, DiskError, MemoryDisk};
use rows_table::{Answer, Call, Miss, debug, number, said, text};
use std::alloc::Global;

/// How large a file may be that is shown.
const SHOWN: u64 = 1 << 16;

pub fn answer(alloc: Global, disk: &mut MemoryDisk, call: &Call) -> Answer {
    if let Some([name, bytes]) = call.words("put") {
        return put(alloc, disk, name, bytes);
    }
    if let Some([name, size]) = call.words("extend") {
        return extend(alloc, disk, name, size);
    }
    if let Some([name]) = call.words("remove") {
        return done(alloc, disk.remove(text(name)?));
    }
    if let Some([name]) = call.words("file") {
        return shown(alloc, disk, text(name)?);
    }
    if let Some([name]) = call.words("size") {
        return size(alloc, disk, name);
    }
    if let Some([]) = call.words("names") {
        return names(alloc, disk);
    }
    if let Some([calls]) = call.words("fuse") {
        disk.fuse(number(calls)?);
        return said(alloc, "done");
    }
    Err(Miss::Call)
}

/// Puts a file with these bytes alone there, and makes it certain.
fn put(alloc: Global, disk: &mut MemoryDisk, name: &[u8], bytes: &[u8]) -> Answer {
    let name = text(name)?;
    done(alloc, put_file(disk, name, bytes))
}

fn put_file(disk: &mut MemoryDisk, name: &str, bytes: &[u8]) -> Result<(), DiskError> {
    match disk.remove(name) {
        Ok(()) | Err(DiskError::Missing) => {}
        Err(error) => return Err(error),
    }
    disk.write_at(name, 0, bytes)?;
    disk.sync(name)
}

/// Lets a file have so many bytes, of which the last ones are zeros, and makes it certain.
fn extend(alloc: Global, disk: &mut MemoryDisk, name: &[u8], size: &[u8]) -> Answer {
    let (name, last) = (
        text(name)?,
        number(size)?.checked_sub(1).ok_or(Miss::Words)?,
    );
    done(alloc, extend_file(disk, name, last))
}

fn extend_file(disk: &mut MemoryDisk, name: &str, last: u64) -> Result<(), DiskError> {
    disk.write_at(name, last, &[0])?;
    disk.sync(name)
}

/// The bytes of a file.
fn shown(alloc: Global, disk: &mut MemoryDisk, name: &str) -> Answer {
    let size = match disk.size(name) {
        Ok(size) if size <= SHOWN => size,
        Ok(_) => return Err(Miss::Words),
        Err(error) => return debug(alloc, &error),
    };
    let mut room = vec![in alloc; 0; size as usize]?;
    match disk.read_at(name, 0, &mut room) {
        Ok(_) => Ok(room),
        Err(error) => debug(alloc, &error),
    }
}

fn size(alloc: Global, disk: &mut MemoryDisk, name: &[u8]) -> Answer {
    match disk.size(text(name)?) {
        Ok(size) => debug(alloc, &size),
        Err(error) => debug(alloc, &error),
    }
}

fn names(alloc: Global, disk: &mut MemoryDisk) -> Answer {
    match disk.names() {
        Ok(names) => debug(alloc, &names),
        Err(error) => debug(alloc, &error),
    }
}
