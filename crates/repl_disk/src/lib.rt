//! Files that survive a crash.
//!
//! `Disk` is files by name. Its contract says of each call what the files read afterwards, and what a crash may leave of
//! them at any moment of the call: `specs/Folder.antt` and `specs/Crash.antt`. `replace` puts other bytes under a name so
//! that a crash leaves the old or the new. `MemoryDisk` is a disk in memory that crashes and fails as it is told, and
//! `FolderDisk` a folder of the system, which is trusted. Stands on `repl_effects` and the kit's `thiserror`.
//!
//! ```text
//! let mut disk = FolderDisk::new(rt, "data")?;
//! disk.write_at("log", 0, b"record")?;
//! disk.sync("log")?;                                       // from here on a crash leaves the record
//! replace_by(&mut disk, "end", "end.tmp", b"6")?;          // and never half of an end
//! ```
#![tactic(auto)]

mod bytes;
mod disk;
mod folder;
mod history;
mod memory;
mod memory_file;
mod memory_files;
mod past;
mod replacing;
mod system;
mod tally;
mod undo;

pub use disk::{Disk, DiskError};
pub use folder::FolderDisk;
pub use memory::MemoryDisk;
pub use replacing::{replace, replace_by};
