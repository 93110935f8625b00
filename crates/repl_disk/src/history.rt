//! The files of a disk in memory, and the calls that led to them.
ghost use Rattle.std.specs.Prelude.{◌≡◌, ℕ, ◌+◌, ◌^◌, ◌<◌, ◌≤◌, List, [], length, map, IfOk, IsSome, OnOk, MatchResult, None, Some, string_bytes, true, false};
ghost use Rattle.repl_disk.specs.declared.disk.DiskError.TheVariants as error;
ghost use Rattle.repl_disk.specs.Files.{folder_of};
ghost use Rattle.repl_disk.specs.Folder.{AreNames, ReadsAt, moved, put, written};
ghost use Rattle.repl_disk.specs.Answers.{NeverWants};
ghost use Rattle.repl_disk.specs.Crash.{Tears, Syncs, Moves, Removes};
ghost use Rattle.repl_disk.specs.Memory.{Did, DidNot, KeepsNoWrite, certain};

use crate::disk::DiskError;
use crate::memory_file::File;
use crate::memory_files;
use crate::past::{Note, Past};
use std::alloc::Global;
use std::marker::Model;

/// The files, sorted by their names, and the calls since the disk was made or crashed. Only the files take memory.
#[derive(Drop)]
pub(crate) struct History {
    alloc: Global,
    files: Vec<File>,
    past: Past,
}

impl Model for History {
    ghost use Rattle.std.specs.Prelude.{◌≡◌};
    ghost use Rattle.repl_disk.specs.Files.{AreOrdered, folder_of, certain_folder};
    ghost use Rattle.repl_disk.specs.Memory.{Held, certain};

    ghost Value = { Held };

    ghost view = { λ h. record { files = h.files.items; calls = h.past.calls } };

    ghost invariant = { λ h. AreOrdered h.files.items × (certain h.past.calls (folder_of h.files.items) ≡ certain_folder h.files.items) };
}

impl History {
    /// No file, and no call.
    pub(crate) fn new(alloc: Global) -> History
        ensures { result ≡ record { files = []; calls = [] } }
    {
        History {
            alloc,
            files: Vec::new(alloc),
            past: Past::new(),
        }
    }

    /// How many bytes the file has.
    pub(crate) fn size(&self, name: &str) -> Result<u64, DiskError>
        ensures { MatchResult result
            (λ n. (bytes : List ℕ) × (folder_of self.now.files name.now ≡ Some bytes) × (n ≡ length bytes))
            (λ e. (e ≡ error.Missing) × (folder_of self.now.files name.now ≡ None)) }
    {
        match memory_files::find(&self.files, name) {
            Some(file) => Ok(file.size() as u64),
            None => Err(DiskError::Missing),
        }
    }

    /// Copies the file's bytes from `at` on into the front of `room`, and answers how many they are.
    pub(crate) fn read_at(&self, name: &str, at: u64, room: &mut [u8]) -> Result<usize, DiskError>
        ensures within { IfOk result (λ n. n ≤ length room.old) }
        ensures read { MatchResult result
            (λ n. ReadsAt (folder_of self.now.files name.now) at n room.old room.new)
            (λ e. (e ≡ error.Missing) × (folder_of self.now.files name.now ≡ None)) }
    {
        match memory_files::find(&self.files, name) {
            Some(file) => Ok(file.read(at, room)),
            None => Err(DiskError::Missing),
        }
    }

    /// Writes the bytes into the file from `at` on, or makes it.
    pub(crate) fn write_at(&mut self, name: &str, at: usize, bytes: &[u8]) -> Result<(), DiskError>
        requires { at + length bytes.now < 2 ^ 64 }
        ensures { MatchResult result
            (λ _. Did self.old self.new (λ folder. written folder name.now at bytes.now) (Tears name.now at (length bytes.now)))
            (λ e. (e ≡ error.Memory) × (self.new ≡ self.old)) }
    {
        let past = self.past.then(&Note::Write {
            files: &self.files,
            name,
            at,
            bytes,
        });
        memory_files::write(self.alloc, &mut self.files, name, at, bytes)?;
        self.past = past;
        Ok(())
    }

    /// Makes certain what was written into the file, and its name, and lets go of how its writes are taken back. Takes no
    /// memory.
    pub(crate) fn sync(&mut self, name: &str) -> Result<(), DiskError>
        ensures there { OnOk result (IsSome (folder_of self.old.files name.now)) }
        ensures done { MatchResult result
            (λ _. Did self.old self.new (λ folder. folder) (Syncs name.now (folder_of self.old.files name.now)))
            (λ e. DidNot self.old self.new name.now e) }
        ensures lets_go { OnOk result (KeepsNoWrite self.new.files name.now) }
        ensures never_wants { NeverWants result }
    {
        let past = self.past.then(&Note::Sync { name });
        if !memory_files::settle(&mut self.files, name) {
            return Err(DiskError::Missing);
        }
        self.past = past;
        Ok(())
    }

    /// Gives the file another name, and takes that from the file that had it.
    pub(crate) fn rename(&mut self, from: &str, to: &str) -> Result<(), DiskError>
        ensures there { OnOk result (IsSome (folder_of self.old.files from.now)) }
        ensures done { MatchResult result
            (λ _. Did self.old self.new (λ folder. moved folder from.now to.now) (Moves from.now to.now))
            (λ e. DidNot self.old self.new from.now e) }
    {
        let name = String::from_str(self.alloc, to)?;
        let past = self.past.then(&Note::Rename {
            files: &self.files,
            from,
            to,
        });
        let Some(mut file) = memory_files::take(&mut self.files, from) else {
            return Err(DiskError::Missing);
        };
        file.rename(name);
        // This finds room, since a file was taken out.
        memory_files::put(&mut self.files, file)?;
        self.past = past;
        Ok(())
    }

    /// Removes the file. Takes no memory.
    pub(crate) fn remove(&mut self, name: &str) -> Result<(), DiskError>
        ensures there { OnOk result (IsSome (folder_of self.old.files name.now)) }
        ensures done { MatchResult result
            (λ _. Did self.old self.new (λ folder. put folder name.now None) (Removes name.now))
            (λ e. DidNot self.old self.new name.now e) }
        ensures never_wants { NeverWants result }
    {
        let past = self.past.then(&Note::Remove {
            files: &self.files,
            name,
        });
        let Some(_file) = memory_files::take(&mut self.files, name) else {
            return Err(DiskError::Missing);
        };
        self.past = past;
        Ok(())
    }

    /// The names of the files, sorted by their bytes.
    pub(crate) fn names(&self) -> Result<Vec<String>, DiskError>
        ensures { MatchResult result (λ names. AreNames (folder_of self.now.files) (map string_bytes names.items)) (λ e. e ≡ error.Memory) }
    {
        Ok(memory_files::names(self.alloc, &self.files)?)
    }

    /// What a crash leaves: the files as they read, or what is certain of them. Takes no memory.
    pub(crate) fn crash(self, keep: bool) -> History
        ensures settled { result.calls ≡ [] }
        ensures kept { keep ≡ true → folder_of result.files ≡ folder_of self.files }
        ensures lost { keep ≡ false → folder_of result.files ≡ certain self.calls (folder_of self.files) }
    {
        let mut files = self.files;
        if keep {
            memory_files::settle_all(&mut files);
        } else {
            memory_files::revert_all(&mut files);
        }
        History {
            alloc: self.alloc,
            files,
            past: Past::new(),
        }
    }
}
