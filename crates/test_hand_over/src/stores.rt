//! Disks, and stores over them.
ghost use Rattle.std.specs.Prelude.{◌≡◌};

use crate::crossing::there_and_back;
use repl_control::{Control, Role};
use repl_disk::{Disk, FolderDisk, MemoryDisk};
use repl_page::Ident;
use repl_store::{Store, StoreStatus};
use std::thread::Threads;

/// What a store is, what its control says, and what the pages of its log have in common.
pub fn hand_controls<R: Threads>(
    rt: &R,
    role: Role,
    control: Control,
    ident: Ident,
) -> (Role, Control, Ident)
    ensures { result ≡ (role, control, ident) }
{
    (
        there_and_back(rt, role),
        there_and_back(rt, control),
        there_and_back(rt, ident),
    )
}

/// A disk in memory.
pub fn hand_disk<R: Threads>(rt: &R, disk: MemoryDisk) -> MemoryDisk
    ensures { result ≡ disk }
{
    there_and_back(rt, disk)
}

/// A folder of the system as a disk.
pub fn hand_folder<R: Threads>(rt: &R, folder: FolderDisk<HostRuntime>) -> FolderDisk<HostRuntime>
    ensures { result ≡ folder }
{
    there_and_back(rt, folder)
}

/// A store, over any disk that can be handed over.
pub fn hand_store<R: Threads, D: Disk + Send + Sync + Drop>(rt: &R, store: Store<D>) -> Store<D>
    ensures { result ≡ store }
{
    there_and_back(rt, store)
}

/// How far a store stands.
pub fn hand_store_status<R: Threads>(rt: &R, status: StoreStatus) -> StoreStatus
    ensures { result ≡ status }
{
    there_and_back(rt, status)
}
