//! A disk in memory.
ghost use Rattle.std.specs.Prelude.{◌≡◌, ℕ, ◌≤◌, ◌↔◌, ◌+◌, [], Contains, List, Some, None, true, false, length, map, string_bytes, IfOk, OnOk, refl};
ghost use Rattle.repl_disk.specs.Folder.{Stayed, ReadsAt, AreNames};
ghost use Rattle.repl_disk.specs.Crash.{Tears, Syncs, Moves, Removes, NoneNew};
ghost use Rattle.repl_disk.specs.Answers.{Wrote, Moved, Removed, OnlyWhereThere, NeverMissing, NeverWants, Leaves, LeavesAll, Ends, EndsRead};
ghost use Rattle.repl_disk.specs.Memory.{Counts, Crashed, IsDue, KeepsNoWrite, KeepsOn, LeavesNow, begun, certain_files, reading, state_of};
ghost use Rattle.repl_disk.specs.Images.{reads_as_image, image_counts, image_only};
ghost use Rattle.repl_disk.specs.Keeping.{keeps_itself, keeps_on};

use crate::disk::{Disk, DiskError};
use crate::history::History;
use crate::tally::Tally;
use std::alloc::Global;
use std::marker::Model;

/// A disk in memory, which crashes and fails as it is told.
///
/// It keeps its files, and of each write how it is taken back until a `sync` of its file or a crash: the bytes that it
/// wrote over and two numbers. So a write at the end of a file keeps no bytes twice, a file that was just synced keeps its
/// bytes alone, and what a `rename` or a `remove` does away with is gone. The calls themselves, by which the clauses say
/// what a crash may leave now and at each earlier moment, stand in the contracts alone, and take no memory. A call that
/// fails is counted and does nothing else.
#[derive(Drop)]
pub struct MemoryDisk {
    history: History,
    /// The numbers, from 1, of the calls that fail.
    failing: Vec<u64>,
    /// How many calls pass before each fails, where that was set.
    fuse: Option<u64>,
    calls: u64,
    tally: Tally,
}

impl Model for MemoryDisk {
    ghost use Rattle.repl_disk.specs.Memory.{Memory};

    ghost Value = { Memory };

    ghost view = { λ d. record { files = d.history.files; calls = d.history.calls; failing = d.failing.items; fuse = d.fuse; count = d.calls; faults = d.tally.faults; wants = d.tally.wants; lacks = d.tally.lacks } };
}

/// The next number is one of those.
fn follows(number: u64, numbers: &[u64]) -> bool
    ensures { (result ≡ true) ↔ Contains numbers.now (number + 1) }
{
    match number.checked_add(1) {
        Some(next) => numbers.contains(&next),
        None => false,
    }
}

impl MemoryDisk {
    /// A disk without files, whose calls with these numbers, from 1, fail.
    pub fn new(alloc: Global, failing: Vec<u64>) -> MemoryDisk
        ensures { result ≡ record { files = []; calls = []; failing = failing.items; fuse = None; count = 0; faults = 0; wants = 0; lacks = 0 } }
    {
        MemoryDisk {
            history: History::new(alloc),
            failing,
            fuse: None,
            calls: 0,
            tally: Tally::new(),
        }
    }

    /// How many calls were made so far, those that failed among them; it stops at 2^64 - 1.
    pub fn calls(&self) -> u64
        ensures { result ≡ self.now.count }
    {
        self.calls
    }

    /// Lets so many calls pass, and then each fails, until a crash. An earlier fuse is forgotten.
    pub fn fuse(&mut self, k: u64)
        ensures { self.new ≡ record { files = self.old.files; calls = self.old.calls; failing = self.old.failing; fuse = Some k; count = self.old.count; faults = self.old.faults; wants = self.old.wants; lacks = self.old.lacks } }
    {
        self.fuse = Some(k);
    }

    /// What a crash leaves: all that was written, or what was synced alone. The numbers of calls go on, and a fuse ends.
    /// Takes no memory.
    pub fn crash(self, keep: bool) -> MemoryDisk
        ensures kept { keep ≡ true → Crashed self result (reading self) }
        ensures lost { keep ≡ false → Crashed self result (certain_files self) }
        // Either is one of those that a crash may leave.
        ensures image { LeavesNow self (reading result) }
    {
        MemoryDisk {
            history: self.history.crash(keep),
            fuse: None,
            ..self
        }
    }

    /// The next call fails.
    fn is_due(&self) -> bool
        ensures { (result ≡ true) ↔ IsDue self.now }
    {
        self.fuse == Some(0) || follows(self.calls, &self.failing)
    }

    /// Counts a call, and a fault where it is due to fail.
    fn count_call(&mut self, due: bool)
        ensures counted { self.new ≡ begun self.old due }
        ensures no_fewer { self.old.count ≤ self.new.count }
    {
        self.calls = self.calls.saturating_add(1);
        if let Some(left) = self.fuse {
            self.fuse = Some(left.saturating_sub(1));
        }
        if due {
            self.tally.count(DiskError::Failed);
        }
    }

    /// Counts a call, and answers whether it is due to fail.
    fn begin(&mut self) -> bool
        ensures due { (result ≡ true) ↔ IsDue self.old }
        ensures counted { self.new ≡ begun self.old result }
        ensures keeps { KeepsOn self.old self.new }
    {
        let due = self.is_due();
        self.count_call(due);
        due
    }
}

impl Disk for MemoryDisk {
    ghost state = { state_of };

    ghost keeps = { KeepsOn };

    fn size(&mut self, name: &str) -> Result<u64, DiskError>
        ensures counted { Counts self.old self.new result }
        ensures size { IfOk result (λ n. (bytes : List ℕ) × (reading self.old name.now ≡ Some bytes) × (n ≡ length bytes)) }
        ensures there { OnlyWhereThere (Some (reading self.old)) name.now result }
        ensures files { Stayed (Some (reading self.old)) (Some (reading self.new)) }
        ensures crash { NoneNew (LeavesNow self.old) (LeavesNow self.new) }
        ensures all { NoneNew (LeavesNow self.new) (LeavesNow self.old) }
        ensures ends { Ends result (state_of self.old) (state_of self.new) }
        ensures keeps { KeepsOn self.old self.new }
    {
        if self.begin() {
            return Err(DiskError::Failed);
        }
        let answer = self.history.size(name);
        self.tally.tell(answer)
    }

    fn read_at(&mut self, name: &str, at: u64, room: &mut [u8]) -> Result<usize, DiskError>
        ensures counted { Counts self.old self.new result }
        ensures within { IfOk result (λ n. n ≤ length room.old) }
        ensures read { IfOk result (λ n. ReadsAt (reading self.old name.now) at n room.old room.new) }
        ensures there { OnlyWhereThere (Some (reading self.old)) name.now result }
        ensures files { Stayed (Some (reading self.old)) (Some (reading self.new)) }
        ensures crash { NoneNew (LeavesNow self.old) (LeavesNow self.new) }
        ensures all { NoneNew (LeavesNow self.new) (LeavesNow self.old) }
        ensures ends { EndsRead (length room.old) result (state_of self.old) (state_of self.new) }
        ensures keeps { KeepsOn self.old self.new }
    {
        if self.begin() {
            return Err(DiskError::Failed);
        }
        let answer = self.history.read_at(name, at, room);
        self.tally.tell_read(room.len(), answer)
    }

    fn write_at(&mut self, name: &str, at: u64, bytes: &[u8]) -> Result<(), DiskError>
        ensures counted { Counts self.old self.new result }
        ensures written { Wrote result (Some (reading self.old)) (Some (reading self.new)) name.now at bytes.now }
        ensures never_missing { NeverMissing result }
        ensures crash { Leaves result (Tears name.now at (length bytes.now)) (LeavesNow self.old) (LeavesNow self.new) }
        ensures all { LeavesAll result (Tears name.now at (length bytes.now)) (LeavesNow self.old) (LeavesNow self.new) }
        ensures ends { Ends result (state_of self.old) (state_of self.new) }
        ensures keeps { KeepsOn self.old self.new }
    {
        if self.begin() {
            return Err(DiskError::Failed);
        }
        if at.checked_add(bytes.len() as u64).is_none() {
            return self.tally.tell(Err(DiskError::Memory));
        }
        let answer = self.history.write_at(name, at as usize, bytes);
        self.tally.tell(answer)
    }

    fn sync(&mut self, name: &str) -> Result<(), DiskError>
        ensures counted { Counts self.old self.new result }
        ensures there { OnlyWhereThere (Some (reading self.old)) name.now result }
        ensures files { Stayed (Some (reading self.old)) (Some (reading self.new)) }
        ensures crash { Leaves result (Syncs name.now (reading self.old name.now)) (LeavesNow self.old) (LeavesNow self.new) }
        ensures all { LeavesAll result (Syncs name.now (reading self.old name.now)) (LeavesNow self.old) (LeavesNow self.new) }
        ensures lets_go { OnOk result (KeepsNoWrite self.new.files name.now) }
        ensures never_wants { NeverWants result }
        ensures ends { Ends result (state_of self.old) (state_of self.new) }
        ensures keeps { KeepsOn self.old self.new }
    {
        if self.begin() {
            return Err(DiskError::Failed);
        }
        let answer = self.history.sync(name);
        self.tally.tell(answer)
    }

    fn rename(&mut self, from: &str, to: &str) -> Result<(), DiskError>
        ensures counted { Counts self.old self.new result }
        ensures moved { Moved result (Some (reading self.old)) (Some (reading self.new)) from.now to.now }
        ensures there { OnlyWhereThere (Some (reading self.old)) from.now result }
        ensures crash { Leaves result (Moves from.now to.now) (LeavesNow self.old) (LeavesNow self.new) }
        ensures all { LeavesAll result (Moves from.now to.now) (LeavesNow self.old) (LeavesNow self.new) }
        ensures ends { Ends result (state_of self.old) (state_of self.new) }
        ensures keeps { KeepsOn self.old self.new }
    {
        if self.begin() {
            return Err(DiskError::Failed);
        }
        let answer = self.history.rename(from, to);
        self.tally.tell(answer)
    }

    fn remove(&mut self, name: &str) -> Result<(), DiskError>
        ensures counted { Counts self.old self.new result }
        ensures removed { Removed result (Some (reading self.old)) (Some (reading self.new)) name.now }
        ensures there { OnlyWhereThere (Some (reading self.old)) name.now result }
        ensures crash { Leaves result (Removes name.now) (LeavesNow self.old) (LeavesNow self.new) }
        ensures all { LeavesAll result (Removes name.now) (LeavesNow self.old) (LeavesNow self.new) }
        ensures never_wants { NeverWants result }
        ensures ends { Ends result (state_of self.old) (state_of self.new) }
        ensures keeps { KeepsOn self.old self.new }
    {
        if self.begin() {
            return Err(DiskError::Failed);
        }
        let answer = self.history.remove(name);
        self.tally.tell(answer)
    }

    fn names(&mut self) -> Result<Vec<String>, DiskError>
        ensures counted { Counts self.old self.new result }
        ensures names { IfOk result (λ names. AreNames (reading self.old) (map string_bytes names.items)) }
        ensures never_missing { NeverMissing result }
        ensures files { Stayed (Some (reading self.old)) (Some (reading self.new)) }
        ensures crash { NoneNew (LeavesNow self.old) (LeavesNow self.new) }
        ensures all { NoneNew (LeavesNow self.new) (LeavesNow self.old) }
        ensures ends { Ends result (state_of self.old) (state_of self.new) }
        ensures keeps { KeepsOn self.old self.new }
    {
        if self.begin() {
            return Err(DiskError::Failed);
        }
        let answer = self.history.names();
        self.tally.tell(answer)
    }

    ghost as_it_reads = { λ d. reads_as_image d.calls (reading d) };

    ghost counts_now = { λ d t image le now. image_counts d.calls (reading d) t image le now };

    ghost only_now = { λ d image left. image_only d.calls (reading d) image left };

    ghost keeps_itself = { keeps_itself };

    ghost keeps_on = { keeps_on };

    ghost never_falls = { λ _ _ kept. record { tells = refl; faults = kept.faults; wants = kept.wants; lacks = kept.lacks } };
}
