//! The tools, over the rows' disk.
use crate::told::told;
use repl_admin::Tended;
use repl_disk::MemoryDisk;
use repl_io::SteadyLink;
use repl_store::Role;
use rows_table::{Answer, Miss, number, text};
use std::alloc::Global;
use std::mem;

/// Takes the disk, and leaves one without files.
pub fn take_disk(alloc: Global, disk: &mut MemoryDisk) -> MemoryDisk {
    mem::replace(disk, MemoryDisk::new(alloc, Vec::new(alloc)))
}

/// A sink that takes all.
fn sink(alloc: Global) -> Result<SteadyLink, Miss> {
    Ok(SteadyLink::new(alloc, Vec::new(alloc))?)
}

/// Puts the disk back, and tells how a tool ended.
fn tell(
    alloc: Global,
    disk: &mut MemoryDisk,
    ended: (Tended, MemoryDisk),
    out: &SteadyLink,
) -> Answer {
    let (end, after) = ended;
    *disk = after;
    told(alloc, end, out.written())
}

/// The words are the role, the system's identifier, and the pages' magic number.
pub fn init(alloc: Global, disk: &mut MemoryDisk, words: &[Vec<u8>]) -> Answer {
    let [name, sysid, magic] = words else {
        return Err(Miss::Words);
    };
    let (role, sysid, magic) = (role(name)?, number(sysid)?, hexadecimal(magic)?);
    let mut out = sink(alloc)?;
    let taken = take_disk(alloc, disk);
    let ended = repl_admin::init(alloc, taken, role, sysid, magic, &mut out);
    tell(alloc, disk, ended, &out)
}

pub fn status(alloc: Global, disk: &mut MemoryDisk) -> Answer {
    let mut out = sink(alloc)?;
    let taken = take_disk(alloc, disk);
    let ended = repl_admin::status(alloc, taken, &mut out);
    tell(alloc, disk, ended, &out)
}

pub fn check(alloc: Global, disk: &mut MemoryDisk) -> Answer {
    let mut out = sink(alloc)?;
    let taken = take_disk(alloc, disk);
    let ended = repl_admin::check(alloc, taken, &mut out);
    tell(alloc, disk, ended, &out)
}

fn role(word: &[u8]) -> Result<Role, Miss> {
    match text(word)? {
        "primary" => Ok(Role::Primary),
        "standby" => Ok(Role::Standby),
        _ => Err(Miss::Words),
    }
}

/// A number of four hexadecimal digits at most.
fn hexadecimal(word: &[u8]) -> Result<u16, Miss> {
    u16::from_str_radix(text(word)?, 16).ok().ok_or(Miss::Words)
}
