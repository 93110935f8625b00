//! Other bytes under a name, so that a crash leaves the old ones or the new.
ghost use Rattle.std.specs.Prelude.{◌≡◌, ◌≢◌, ◌⊎◌, OnOk, IfErr, Some, Err};
ghost use Rattle.repl_effects.specs.Counts.{Rose, RoseBy, RoseExactly, Stood};
ghost use Rattle.repl_disk.specs.declared.disk.DiskError.TheVariants as DiskError;
ghost use Rattle.repl_disk.specs.Answers.{is_failed, Caused, NeverMissing, Removed, Leaves};
ghost use Rattle.repl_disk.specs.Folder.{Folder, IfTold, Became, put};
ghost use Rattle.repl_disk.specs.Crash.{LeavesOnly, Elapses, Either, Removes};
ghost use Rattle.repl_disk.specs.Replacing.{IsAside, HasAside, IsHalfAside, IsBeforeOrAfter, IsAfter, IsHalfDone, IsUntouched, replaced, temporary};

use crate::disk::{Disk, DiskError};
use std::alloc::Global;

/// Puts these bytes under the name as `replace_by` does, with the temporary name `NAME.tmp`. Takes memory for that name.
pub fn replace<D: Disk>(
    alloc: Global,
    disk: &mut D,
    name: &str,
    bytes: &[u8],
) -> Result<(), DiskError>
    ensures any_moment { IfTold (D.state disk.old).files (λ folder. LeavesOnly (D.state disk.old) (D.state disk.new)
        (IsBeforeOrAfter (D.state disk.old).may_leave name.now (temporary name.now) bytes.now)) }
    ensures durable { OnOk result (IfTold (D.state disk.old).files (λ folder. (image : Folder) → (D.state disk.new).may_leave image →
        IsAfter (D.state disk.old).may_leave name.now (temporary name.now) bytes.now image)) }
    ensures files { OnOk result (Became (D.state disk.old).files (D.state disk.new).files (λ folder. replaced folder name.now (temporary name.now) bytes.now)) }
    ensures half_done { IfErr result (λ e. IsHalfDone (D.state disk.old).files (D.state disk.new).files name.now (temporary name.now) bytes.now) }
    ensures faults { RoseExactly (is_failed result) (D.state disk.old).faults (D.state disk.new).faults }
    // The temporary name may find no memory.
    ensures wants { Stood (D.state disk.old).wants (D.state disk.new).wants ⊎ (Rose (D.state disk.old).wants (D.state disk.new).wants × (result ≡ Err DiskError.Memory)) }
    ensures missing { result ≡ Err DiskError.Missing → Rose (D.state disk.old).lacks (D.state disk.new).lacks }
    ensures there { IfTold (D.state disk.old).files (λ folder. NeverMissing result) }
    ensures keeps { D.keeps disk.old disk.new }
{
    let aside = format!(in alloc; "{name}.tmp")?;
    replace_by(disk, name, &aside, bytes)
}

/// Puts these bytes under the name, in the place of the file that had it: writes them under the temporary name, syncs
/// that file, and renames it. A crash at any moment leaves the old bytes under the name, or the new, and from `Ok` on the
/// new alone. A file that has the temporary name, as an earlier crash may leave one, is removed. Takes no memory but what
/// the disk itself takes.
pub fn replace_by<D: Disk>(
    disk: &mut D,
    name: &str,
    aside: &str,
    bytes: &[u8],
) -> Result<(), DiskError>
    requires { name.now ≢ aside.now }
    // A crash at any moment of the call leaves the old file or the new, and no other file but the temporary
    // one changed.
    ensures any_moment { IfTold (D.state disk.old).files (λ folder. LeavesOnly (D.state disk.old) (D.state disk.new)
        (IsBeforeOrAfter (D.state disk.old).may_leave name.now aside.now bytes.now)) }
    // When it is done, a crash leaves the new file.
    ensures durable { OnOk result (IfTold (D.state disk.old).files (λ folder. (image : Folder) → (D.state disk.new).may_leave image →
        IsAfter (D.state disk.old).may_leave name.now aside.now bytes.now image)) }
    ensures files { OnOk result (Became (D.state disk.old).files (D.state disk.new).files (λ folder. replaced folder name.now aside.now bytes.now)) }
    // After an error the name has the old file or the new, and no other file but the temporary one
    // changed.
    ensures half_done { IfErr result (λ e. IsHalfDone (D.state disk.old).files (D.state disk.new).files name.now aside.now bytes.now) }
    // Where the disk found no memory the name has the old file.
    ensures no_memory { result ≡ Err DiskError.Memory → IfTold (D.state disk.old).files (λ folder.
        IsUntouched (D.state disk.old) (D.state disk.new) aside.now) }
    // An error is the disk's own, and none is passed over.
    ensures caused { Caused result (D.state disk.old) (D.state disk.new) }
    ensures there { IfTold (D.state disk.old).files (λ folder. NeverMissing result) }
    ensures keeps { D.keeps disk.old disk.new }
{
    write_aside(disk, aside, bytes)?;
    disk.rename(aside, name)
}

/// Puts these bytes under the name of a file that does not matter otherwise, and syncs it.
fn write_aside<D: Disk>(disk: &mut D, name: &str, bytes: &[u8]) -> Result<(), DiskError>
    ensures any_moment { IfTold (D.state disk.old).files (λ folder. LeavesOnly (D.state disk.old) (D.state disk.new) (IsAside (D.state disk.old).may_leave name.now)) }
    ensures durable { OnOk result (IfTold (D.state disk.old).files (λ folder. HasAside (D.state disk.old).may_leave (D.state disk.new).may_leave name.now bytes.now)) }
    ensures files { OnOk result (Became (D.state disk.old).files (D.state disk.new).files (λ folder. put folder name.now (Some bytes.now))) }
    ensures half_done { IfErr result (λ e. IsHalfAside (D.state disk.old).files (D.state disk.new).files name.now) }
    ensures caused { Caused result (D.state disk.old) (D.state disk.new) }
    ensures lacks { RoseBy 0 (D.state disk.old).lacks (D.state disk.new).lacks }
    ensures there { IfTold (D.state disk.old).files (λ folder. NeverMissing result) }
    ensures keeps { D.keeps disk.old disk.new }
{
    clear(disk, name)?;
    disk.write_at(name, 0, bytes)?;
    disk.sync(name)
}

/// Removes the file, if it is there.
fn clear<D: Disk>(disk: &mut D, name: &str) -> Result<(), DiskError>
    ensures files { Removed result (D.state disk.old).files (D.state disk.new).files name.now }
    ensures never_missing { NeverMissing result }
    ensures crash { IfTold (D.state disk.old).files (λ folder. Leaves result (Either (Removes name.now)) (D.state disk.old).may_leave (D.state disk.new).may_leave) }
    ensures time { Elapses (D.state disk.old) (D.state disk.new) }
    ensures caused { Caused result (D.state disk.old) (D.state disk.new) }
    ensures lacks { RoseBy 0 (D.state disk.old).lacks (D.state disk.new).lacks }
    ensures keeps { D.keeps disk.old disk.new }
{
    match disk.remove(name) {
        Err(DiskError::Missing) => Ok(()),
        done => done,
    }
}
