//! The calls by which a node is made, or mounted again.
use crate::place::{Place, new_disk};
use repl_control::{Role, version_1_size};
use repl_disk::{Disk, DiskError, MemoryDisk};
use repl_node::{Node, NodeFault};
use repl_page::Ident;
use rows_table::{Answer, Call, Miss, debug, said, text};
use std::alloc::Global;

/// A node on a disk, or why there is none, and the disk.
type Made = Result<Node<MemoryDisk>, (NodeFault, MemoryDisk)>;

pub fn answer(alloc: Global, place: &mut Place, call: &Call) -> Answer {
    if let Some([]) = call.words("disk") {
        *place = Place::fresh(alloc);
        return said(alloc, "done");
    }
    if let Some([name, bytes]) = call.words("file") {
        return put_file(alloc, place, text(name)?, bytes);
    }
    if let Some([role]) = call.words("init") {
        return init(alloc, place, new_disk(alloc), role_of(role)?);
    }
    if let Some([role]) = call.words("init_here") {
        let role = role_of(role)?;
        let disk = place.take_disk(alloc);
        return init(alloc, place, disk, role);
    }
    if let Some([]) = call.words("mount") {
        let disk = place.take_disk(alloc);
        return mount(alloc, place, disk);
    }
    if let Some([way]) = call.words("crash") {
        return crash(alloc, place, is_kept(way)?);
    }
    Err(Miss::Call)
}

fn role_of(word: &[u8]) -> Result<Role, Miss> {
    match text(word)? {
        "primary" => Ok(Role::Primary),
        "standby" => Ok(Role::Standby),
        _ => Err(Miss::Words),
    }
}

/// Whether a crash keeps what was not synced, or loses it.
pub fn is_kept(way: &[u8]) -> Result<bool, Miss> {
    match text(way)? {
        "keep" => Ok(true),
        "lose" => Ok(false),
        _ => Err(Miss::Words),
    }
}

/// Puts the node here, or the disk without one.
fn put(alloc: Global, place: &mut Place, made: Made) -> Answer {
    match made {
        Ok(node) => {
            *place = Place::Mounted(node);
            said(alloc, "done")
        }
        Err((fault, disk)) => {
            *place = Place::Bare(disk);
            debug(alloc, &fault)
        }
    }
}

/// Makes a new node on the disk.
fn init(alloc: Global, place: &mut Place, disk: MemoryDisk, role: Role) -> Answer {
    let ident = Ident {
        sysid: 7,
        magic: 0xd116,
        size: version_1_size(),
    };
    put(alloc, place, Node::init(alloc, disk, ident, role))
}

/// Mounts the node that stands on the disk.
fn mount(alloc: Global, place: &mut Place, disk: MemoryDisk) -> Answer {
    put(alloc, place, Node::mount(alloc, disk))
}

/// Mounts the node again after a crash, which keeps what was not synced or loses it.
pub fn crash(alloc: Global, place: &mut Place, keep: bool) -> Answer {
    let disk = place.take_disk(alloc).crash(keep);
    mount(alloc, place, disk)
}

/// Makes a copy of another node on the disk.
pub fn copy(
    alloc: Global,
    place: &mut Place,
    disk: MemoryDisk,
    other: &mut Node<MemoryDisk>,
) -> Answer {
    put(alloc, place, Node::clone_from(alloc, disk, other))
}

/// Writes bytes into the front of a file of the disk, on which no node is mounted then.
fn put_file(alloc: Global, place: &mut Place, name: &str, bytes: &[u8]) -> Answer {
    let mut disk = place.take_disk(alloc);
    let written = write(&mut disk, name, bytes);
    *place = Place::Bare(disk);
    match written {
        Ok(()) => said(alloc, "done"),
        Err(error) => debug(alloc, &error),
    }
}

/// Writes the bytes, and makes them certain.
fn write(disk: &mut MemoryDisk, name: &str, bytes: &[u8]) -> Result<(), DiskError> {
    disk.write_at(name, 0, bytes)?;
    disk.sync(name)
}
