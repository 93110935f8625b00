//! A disk, on which a node may be mounted.
use repl_disk::MemoryDisk;
use repl_node::Node;
use rows_table::Miss;
use std::alloc::Global;
use std::mem;

/// A disk by itself, or under the node that is mounted on it.
#[derive(Drop)]
pub enum Place {
    Bare(MemoryDisk),
    Mounted(Node<MemoryDisk>),
}

/// A disk without files.
pub fn new_disk(alloc: Global) -> MemoryDisk {
    MemoryDisk::new(alloc, Vec::new(alloc))
}

impl Place {
    /// A disk without files.
    pub fn fresh(alloc: Global) -> Place {
        Place::Bare(new_disk(alloc))
    }

    /// The node that is mounted.
    pub fn node(&mut self) -> Result<&mut Node<MemoryDisk>, Miss> {
        match self {
            Place::Bare(_) => Err(Miss::Call),
            Place::Mounted(node) => Ok(node),
        }
    }

    /// Lets so many calls of the disk pass, and then each fails, until a crash.
    pub fn fuse(&mut self, passing: u64) {
        match self {
            Place::Bare(disk) => disk.fuse(passing),
            Place::Mounted(node) => node.fuse(passing),
        }
    }

    /// How many calls of the disk were made so far.
    pub fn calls(&self) -> u64 {
        match self {
            Place::Bare(disk) => disk.calls(),
            Place::Mounted(node) => node.calls(),
        }
    }

    /// Takes what is here, and leaves a disk without files.
    pub fn take(&mut self, alloc: Global) -> Place {
        mem::replace(self, Place::fresh(alloc))
    }

    /// Takes the disk, from under a node too, and leaves one without files.
    pub fn take_disk(&mut self, alloc: Global) -> MemoryDisk {
        match self.take(alloc) {
            Place::Bare(disk) => disk,
            Place::Mounted(node) => node.into_disk(),
        }
    }
}
