//! What a disk is: files by name, and what a crash may leave of them.
ghost use Rattle.std.specs.Prelude.{◌≡◌, ℕ, ◌≤◌, length, Some, IfOk, string_bytes, map, List};
ghost use Rattle.repl_disk.specs.Folder.{Folder, IfTold, Stayed, ReadsAt, AreNames};
ghost use Rattle.repl_disk.specs.Crash.{Tears, Syncs, Moves, Removes, NoneNew};
ghost use Rattle.repl_disk.specs.Answers.{Wrote, Moved, Removed, OnlyWhereThere, NeverMissing, Leaves, Ends, EndsRead};
ghost use Rattle.repl_disk.specs.State.{DiskState, GoesOn};

use std::alloc::AllocError;
use thiserror::Error;

/// Why a call of a disk did not do what it says.
#[derive(Clone, Copy, Debug, PartialEq, Eq, Error)]
pub enum DiskError {
    /// No file has that name.
    #[error("no such file")]
    Missing,
    /// The disk is faulty, or full.
    #[error("disk fault")]
    Failed,
    /// There is no memory.
    #[error("out of memory")]
    Memory,
}

impl From<AllocError> for DiskError {
    ghost use Rattle.std.specs.Prelude.{◌≡◌};
    ghost use Rattle.repl_disk.specs.declared.disk.DiskError.TheVariants.{Memory};

    ghost from_gives = { λ _ e. e ≡ Memory };

    fn from(_error: AllocError) -> DiskError {
        DiskError::Memory
    }
}

/// Files that survive a crash, as far as calls say.
///
/// A write is certain from the next `sync` of its file on; until then a crash may leave any bytes in the range that was
/// written and past the end that the file had, and of a file that the write made, nothing. `rename` and `remove` are
/// certain when they are done. A crash in a call, or after one that failed, leaves what it would have left before, or
/// what it may leave after it.
pub trait Disk {
    /// What the disk tells and counts.
    ghost state: { Self → DiskState };

    /// What calls keep of a disk beside that, from an earlier state of it to a later one. A function over any disk passes
    /// it on, so that whoever calls it with a disk of his own still knows what that disk says of all its calls.
    ghost keeps: { Self → Self → Type 0 };

    /// How many bytes the file has.
    fn size(&mut self, name: &str) -> Result<u64, DiskError>
        ensures size { IfOk result (λ n. IfTold (state self.old).files (λ folder. (bytes : List ℕ) × (folder name.now ≡ Some bytes) × (n ≡ length bytes))) }
        ensures there { OnlyWhereThere (state self.old).files name.now result }
        ensures files { Stayed (state self.old).files (state self.new).files }
        ensures crash { NoneNew (state self.old).may_leave (state self.new).may_leave }
        ensures ends { Ends result (state self.old) (state self.new) }
        ensures keeps { keeps self.old self.new };

    /// Reads the file's bytes from `at` on into the front of `room`, up to the room's length or the file's end, and
    /// answers how many they are. The rest of `room` stays.
    fn read_at(&mut self, name: &str, at: u64, room: &mut [u8]) -> Result<usize, DiskError>
        ensures within { IfOk result (λ n. n ≤ length room.old) }
        ensures read { IfOk result (λ n. IfTold (state self.old).files (λ folder. ReadsAt (folder name.now) at n room.old room.new)) }
        ensures there { OnlyWhereThere (state self.old).files name.now result }
        ensures files { Stayed (state self.old).files (state self.new).files }
        ensures crash { NoneNew (state self.old).may_leave (state self.new).may_leave }
        ensures ends { EndsRead (length room.old) result (state self.old) (state self.new) }
        ensures keeps { keeps self.old self.new };

    /// Writes the bytes into the file from `at` on. A file that is not there is made, and a gap before `at` is zeros.
    fn write_at(&mut self, name: &str, at: u64, bytes: &[u8]) -> Result<(), DiskError>
        ensures written { Wrote result (state self.old).files (state self.new).files name.now at bytes.now }
        ensures never_missing { NeverMissing result }
        ensures crash { IfTold (state self.old).files (λ folder. Leaves result (Tears name.now at (length bytes.now)) (state self.old).may_leave (state self.new).may_leave) }
        ensures ends { Ends result (state self.old) (state self.new) }
        ensures keeps { keeps self.old self.new };

    /// Makes certain what was written into the file, and its name.
    fn sync(&mut self, name: &str) -> Result<(), DiskError>
        ensures there { OnlyWhereThere (state self.old).files name.now result }
        ensures files { Stayed (state self.old).files (state self.new).files }
        ensures crash { IfTold (state self.old).files (λ folder. Leaves result (Syncs name.now (folder name.now)) (state self.old).may_leave (state self.new).may_leave) }
        ensures ends { Ends result (state self.old) (state self.new) }
        ensures keeps { keeps self.old self.new };

    /// Gives the file another name, and takes that from the file that had it.
    fn rename(&mut self, from: &str, to: &str) -> Result<(), DiskError>
        ensures moved { Moved result (state self.old).files (state self.new).files from.now to.now }
        ensures there { OnlyWhereThere (state self.old).files from.now result }
        ensures crash { IfTold (state self.old).files (λ folder. Leaves result (Moves from.now to.now) (state self.old).may_leave (state self.new).may_leave) }
        ensures ends { Ends result (state self.old) (state self.new) }
        ensures keeps { keeps self.old self.new };

    /// Removes the file.
    fn remove(&mut self, name: &str) -> Result<(), DiskError>
        ensures removed { Removed result (state self.old).files (state self.new).files name.now }
        ensures there { OnlyWhereThere (state self.old).files name.now result }
        ensures crash { IfTold (state self.old).files (λ folder. Leaves result (Removes name.now) (state self.old).may_leave (state self.new).may_leave) }
        ensures ends { Ends result (state self.old) (state self.new) }
        ensures keeps { keeps self.old self.new };

    /// The names of the files, sorted by their bytes.
    fn names(&mut self) -> Result<Vec<String>, DiskError>
        ensures names { IfOk result (λ names. IfTold (state self.old).files (λ folder. AreNames folder (map string_bytes names.items))) }
        ensures never_missing { NeverMissing result }
        ensures files { Stayed (state self.old).files (state self.new).files }
        ensures crash { NoneNew (state self.old).may_leave (state self.new).may_leave }
        ensures ends { Ends result (state self.old) (state self.new) }
        ensures keeps { keeps self.old self.new };

    /// A disk as it reads is one of those that a crash may leave.
    ghost as_it_reads: { (disk : Self) → IfTold (state disk).files (λ folder. (state disk).may_leave folder) };

    /// This moment is one of those since an earlier one.
    ghost counts_now: { (disk : Self) (t : ℕ) (image : Folder) → t ≤ (state disk).moment → (state disk).may_leave image → (state disk).left_since t image };

    /// Since this moment there is no other.
    ghost only_now: { (disk : Self) (image : Folder) → (state disk).left_since (state disk).moment image → (state disk).may_leave image };

    /// Without a call all is kept.
    ghost keeps_itself: { (disk : Self) → keeps disk disk };

    /// What some calls keep, and then some more, is kept by all of them.
    ghost keeps_on: { (first second third : Self) → keeps first second → keeps second third → keeps first third };

    /// A disk goes on telling its files, or not telling them, and no count falls.
    ghost never_falls: { (old new : Self) → keeps old new → GoesOn (state old) (state new) };
}
