//! Slots on a disk: read from the file `slots`, and written into it.
ghost use Rattle.std.specs.Prelude.{◌≡◌, ◌⊎◌, false, Err, OnOk, IfOk, IfErr};
ghost use Rattle.repl_disk.specs.Crash.{Elapses, LeavesOnly, NoneNew};
ghost use Rattle.repl_disk.specs.Folder.{Became, Folder, IfTold, Stayed};
ghost use Rattle.repl_disk.specs.Replacing.{IsAfter, IsBeforeOrAfter, IsHalfDone, IsUntouched, replaced};
ghost use Rattle.repl_slots.specs.Slot.{AreSlots};
ghost use Rattle.repl_slots.specs.SlotFile.{entries_of};
ghost use Rattle.repl_slots.specs.Stored.{IsCaused, Mounted, Saved, Stores, StoresThrough, aside_name, file_of, slots_name};
ghost use Rattle.repl_slots.specs.declared.fault.SlotFault.TheVariants as fault;

use crate::each::settle_all;
use crate::fault::SlotFault;
use crate::read::read_slots;
use crate::slot::{SLOT_LIMIT, Slot};
use crate::slots::Slots;
use crate::spell::spell_slots;
use repl_disk::{Disk, DiskError, replace_by};
use repl_text::SLOT_NAME_LIMIT;
use std::alloc::Global;

/// The file's name.
const FILE: &str = "slots";

/// The name under which it is written first. A file of this name that a crash left is of no matter.
const ASIDE: &str = "slots.tmp";

/// Space for the longest file of slots, and for a byte more: a header, and of each slot a name and ten bytes.
const ROOM: usize = 8 + SLOT_LIMIT * (SLOT_NAME_LIMIT + 10) + 1;

// What is mounted of a longer file depends on this number.
const _: () = prove!(ROOM == 739);

impl Slots {
    /// The slots that the file `slots` has, each with its restart position saved, and nobody's. Without the file there are
    /// none. Refuses a file that no list of slots spells, at the place where it goes wrong first (`BadSlots`), and what the
    /// disk refuses (`DiskFault`). Takes memory for the list.
    pub fn mount<D: Disk>(alloc: Global, disk: &mut D) -> Result<Slots, SlotFault>
        ensures answer { IfTold (D.state disk.old).files (λ folder. Mounted folder result) }
        ensures sound { IfOk result (λ slots. slots.broken ≡ false) }
        ensures files { Stayed (D.state disk.old).files (D.state disk.new).files }
        ensures crash { NoneNew (D.state disk.old).may_leave (D.state disk.new).may_leave }
        ensures time { Elapses (D.state disk.old) (D.state disk.new) }
        ensures caused { IsCaused result (D.state disk.old) (D.state disk.new) }
        ensures keeps { D.keeps disk.old disk.new }
    {
        let mut room = [0; ROOM];
        let count = match disk.read_at(FILE, 0, &mut room) {
            Ok(count) => count,
            Err(DiskError::Missing) => return Ok(Slots::new(alloc)),
            Err(error) => return Err(error.into()),
        };
        let list = read_slots(alloc, &room[..count])?;
        Ok(Slots {
            list,
            broken: false,
        })
    }

    /// Writes the slots into the file `slots`, but for temporary ones, and from `Ok` on takes their restart positions as
    /// saved. A crash at any moment leaves the file that was there, or the new one. After a disk fault (`DiskFault`) every
    /// further save answers `Broken`, until the slots are mounted again. Takes memory for the file's bytes; where there is
    /// none, the list stays, and on the disk the old file stands.
    pub fn save<D: Disk>(&mut self, alloc: Global, disk: &mut D) -> Result<(), SlotFault>
        ensures answer { Saved self.old self.new result }
        ensures idle { result ≡ Err fault.Broken → disk.new ≡ disk.old }
        // A crash at any moment of the call leaves the old file or the new, and no other file but the temporary one changed.
        ensures any_moment { IfTold (D.state disk.old).files (λ folder. LeavesOnly (D.state disk.old) (D.state disk.new)
            (IsBeforeOrAfter (D.state disk.old).may_leave slots_name aside_name (file_of self.old.slots))) }
        // So a crash at any moment leaves the slots that were stored, or these.
        ensures stored { IfTold (D.state disk.old).files (λ folder. StoresThrough (D.state disk.old) (D.state disk.new) (entries_of self.old.slots)) }
        // When it is done, a crash leaves the new file.
        ensures durable { OnOk result (IfTold (D.state disk.old).files (λ folder. (image : Folder) → (D.state disk.new).may_leave image →
            IsAfter (D.state disk.old).may_leave slots_name aside_name (file_of self.old.slots) image)) }
        ensures after { OnOk result (IfTold (D.state disk.old).files (λ folder. (image : Folder) → (D.state disk.new).may_leave image →
            Stores (entries_of self.old.slots) image)) }
        ensures files { OnOk result (Became (D.state disk.old).files (D.state disk.new).files (λ folder. replaced folder slots_name aside_name (file_of self.old.slots))) }
        // After an error the name has the old file or the new, and no other file but the temporary one changed.
        ensures half_done { IfErr result (λ e. IsHalfDone (D.state disk.old).files (D.state disk.new).files slots_name aside_name (file_of self.old.slots)) }
        // Where there was no memory, the old file stands.
        ensures no_memory { result ≡ Err fault.Memory → IfTold (D.state disk.old).files (λ folder. IsUntouched (D.state disk.old) (D.state disk.new) aside_name) }
        ensures caused { IsCaused result (D.state disk.old) (D.state disk.new) }
        ensures keeps { D.keeps disk.old disk.new }
    {
        if self.broken {
            return Err(SlotFault::Broken);
        }
        let written = write_slots(alloc, disk, &self.list);
        match written {
            Ok(()) => settle_all(&mut self.list),
            Err(SlotFault::DiskFault) => self.broken = true,
            Err(_) => {}
        }
        written
    }
}

/// Writes the file of these slots.
fn write_slots<D: Disk>(alloc: Global, disk: &mut D, slots: &[Slot]) -> Result<(), SlotFault>
    requires { AreSlots slots.now }
    ensures fault { IfErr result (λ e. (e ≡ fault.DiskFault) ⊎ (e ≡ fault.Memory)) }
    ensures any_moment { IfTold (D.state disk.old).files (λ folder. LeavesOnly (D.state disk.old) (D.state disk.new)
        (IsBeforeOrAfter (D.state disk.old).may_leave slots_name aside_name (file_of slots.now))) }
    ensures stored { IfTold (D.state disk.old).files (λ folder. StoresThrough (D.state disk.old) (D.state disk.new) (entries_of slots.now)) }
    ensures durable { OnOk result (IfTold (D.state disk.old).files (λ folder. (image : Folder) → (D.state disk.new).may_leave image →
        IsAfter (D.state disk.old).may_leave slots_name aside_name (file_of slots.now) image)) }
    ensures after { OnOk result (IfTold (D.state disk.old).files (λ folder. (image : Folder) → (D.state disk.new).may_leave image →
        Stores (entries_of slots.now) image)) }
    ensures files { OnOk result (Became (D.state disk.old).files (D.state disk.new).files (λ folder. replaced folder slots_name aside_name (file_of slots.now))) }
    ensures half_done { IfErr result (λ e. IsHalfDone (D.state disk.old).files (D.state disk.new).files slots_name aside_name (file_of slots.now)) }
    ensures no_memory { result ≡ Err fault.Memory → IfTold (D.state disk.old).files (λ folder. IsUntouched (D.state disk.old) (D.state disk.new) aside_name) }
    ensures caused { IsCaused result (D.state disk.old) (D.state disk.new) }
    ensures keeps { D.keeps disk.old disk.new }
{
    let file = spell_slots(alloc, slots)?;
    replace_by(disk, FILE, ASIDE, &file)?;
    Ok(())
}
