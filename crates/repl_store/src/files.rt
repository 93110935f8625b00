//! Reading whole files of a disk, as a mount does.
ghost use Rattle.std.specs.Prelude.{◌≡◌, ◌≤◌, ◌⊎◌, ℕ, List, length, take, Some, None, Ok, Err, IfOk, IfErr, OnOk};
ghost use Rattle.repl_disk.specs.Folder.{Folder, IfTold};
ghost use Rattle.repl_store.specs.Backing.{Asks};
ghost use Rattle.repl_text.specs.Text.{IsText};
ghost use Rattle.repl_store.specs.Refusal.{IsMissingOr, IsOfDisk, IsOfMount};
ghost use Rattle.repl_store.specs.declared.fault.StoreFault.TheVariants as StoreFault;

use crate::fault::{StoreFault, fault_of};
use repl_disk::{Disk, DiskError};
use repl_lsn::Text;
use std::alloc::Global;

/// How many bytes the file has.
pub(crate) fn length_of<D: Disk>(alloc: Global, disk: &mut D, name: &str) -> Result<u64, StoreFault>
    requires { IsText name.now }
    ensures read { IfOk result (λ n. IfTold (D.state disk.old).files (λ folder. (bytes : List ℕ) × (folder name.now ≡ Some bytes) × (n ≡ length bytes))) }
    ensures refused { IfErr result (λ e. IfTold (D.state disk.old).files (λ folder. IsMissingOr folder name.now e)) }
    ensures answers { IfErr result IsOfMount }
    ensures asks { Asks result (D.state disk.old) (D.state disk.new) }
    ensures keeps { D.keeps disk.old disk.new }
{
    match disk.size(name) {
        Ok(length) => Ok(length),
        Err(DiskError::Missing) => Err(missing(alloc, name)),
        Err(error) => Err(fault_of(error)),
    }
}

/// What is said of a file that is not there.
fn missing(alloc: Global, name: &str) -> StoreFault
    requires { IsText name.now }
    ensures made { (result ≡ StoreFault.Missing name.now) ⊎ (result ≡ StoreFault.Memory) }
    ensures answers { IsOfMount result }
{
    match Text::copied(alloc, name.as_bytes()) {
        Ok(text) => StoreFault::Missing(text),
        Err(error) => StoreFault::from(error),
    }
}

/// Fills the room with the bytes at the front of the file.
pub(crate) fn read_front<D: Disk>(
    disk: &mut D,
    name: &str,
    room: &mut [u8],
) -> Result<(), StoreFault>
    ensures size { length room.new ≡ length room.old }
    ensures read { OnOk result (IfTold (D.state disk.old).files (λ folder. (bytes : List ℕ) × (folder name.now ≡ Some bytes) × (room.new ≡ take (length room.old) bytes))) }
    ensures refused { IfErr result IsOfDisk }
    ensures asks { IfTold (D.state disk.old).files (λ folder. (bytes : List ℕ) → folder name.now ≡ Some bytes → length room.old ≤ length bytes → Asks result (D.state disk.old) (D.state disk.new)) }
    ensures untold { (D.state disk.old).files ≡ None → Asks result (D.state disk.old) (D.state disk.new) }
    ensures keeps { D.keeps disk.old disk.new }
{
    match disk.read_at(name, 0, room) {
        Ok(count) if count == room.len() => Ok(()),
        Ok(_) => Err(StoreFault::DiskFault),
        Err(error) => Err(fault_of(error)),
    }
}
