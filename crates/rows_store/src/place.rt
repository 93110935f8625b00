//! A disk, on which a store may be mounted.
use repl_disk::MemoryDisk;
use repl_store::Store;
use rows_table::Miss;
use std::alloc::Global;
use std::mem;

/// A disk by itself, or under the store that is mounted on it.
#[derive(Drop)]
pub enum Place {
    Bare(MemoryDisk),
    Mounted(Store<MemoryDisk>),
}

impl Place {
    /// A disk without files, whose calls with these numbers fail.
    pub fn fresh(alloc: Global, failing: Vec<u64>) -> Place {
        Place::Bare(MemoryDisk::new(alloc, failing))
    }

    /// The store that is mounted.
    pub fn store(&mut self) -> Result<&mut Store<MemoryDisk>, Miss> {
        match self {
            Place::Bare(_) => Err(Miss::Call),
            Place::Mounted(store) => Ok(store),
        }
    }

    pub fn disk(&mut self) -> &mut MemoryDisk {
        match self {
            Place::Bare(disk) => disk,
            Place::Mounted(store) => store.disk_mut(),
        }
    }

    /// Takes the disk, from under a store too, and leaves one without files.
    pub fn take_disk(&mut self, alloc: Global) -> MemoryDisk {
        match mem::replace(self, Place::fresh(alloc, Vec::new(alloc))) {
            Place::Bare(disk) => disk,
            Place::Mounted(store) => store.into_disk(),
        }
    }
}
