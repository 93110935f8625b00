//! A folder of the operating system as a disk.
ghost use Rattle.std.specs.Prelude.{◌≡◌, false, IfOk, None, refl};
ghost use Rattle.repl_disk.specs.Answers.{is_fault, is_want, is_lack, is_failed, is_memory, is_missing, NeverMissing};
ghost use Rattle.repl_disk.specs.Tally.{NoneFell, none_fell_itself, none_fell_on, tallied};

use crate::disk::{Disk, DiskError};
use crate::system::Folder;
use crate::tally::Tally;
use std::fs::File;
use std::io::{self, ErrorKind};
use std::marker::Model;
use std::rt::Files;

/// A folder of the operating system (PostgreSQL 17 manual, section "Reliability").
///
/// Three files stay open: the last two that were written, and the last that was read. So a run of writes into one file
/// opens it once, also where another file is replaced in between. `sync` waits until the file's bytes are on the disk; the
/// folder is synced with it where a file was made since, and after each rename and remove. Files are made for their owner
/// alone, with mode 0600, and a name that is not UTF-8 is passed over. It tells nothing of what the files hold, and so
/// claims nothing of it: its calls count the system's errors, and contracts see those counts.
#[derive(Drop)]
pub struct FolderDisk<R: Files<File = File> + AllocGlobal + Clone + Drop> {
    folder: Folder<R>,
    tally: Tally,
}

impl<R: Files<File = File> + AllocGlobal + Clone + Drop> Model for FolderDisk<R> {
    ghost use Rattle.repl_disk.specs.Tally.{Tallied};

    ghost Value = { Tallied };

    ghost view = { λ d. d.tally };
}

/// What an error of the system is. That there is no file is an answer where the file may be missing, and else a fault.
fn cause(error: &io::Error, may_miss: bool) -> DiskError
    ensures { may_miss ≡ false → is_lack result ≡ false }
{
    match error.kind() {
        ErrorKind::OutOfMemory => DiskError::Memory,
        ErrorKind::NotFound if may_miss => DiskError::Missing,
        _ => DiskError::Failed,
    }
}

impl<R: Files<File = File> + AllocGlobal + Clone + Drop> FolderDisk<R> {
    /// The files of this folder; the empty name is the folder that the program runs in. They and the folder are synced
    /// first, so that all that is read is certain, whoever wrote it. Answers Missing where there is no such folder.
    pub fn new(rt: R, folder: &str) -> Result<FolderDisk<R>, DiskError>
        ensures { IfOk result (λ disk. disk ≡ record { faults = 0; wants = 0; lacks = 0 }) }
    {
        // Without a name, the slash alone would be the root of all folders.
        let folder = if folder.is_empty() { "." } else { folder };
        match Folder::open(rt, folder) {
            Ok(folder) => Ok(FolderDisk {
                folder,
                tally: Tally::new(),
            }),
            Err(error) => Err(cause(&error, true)),
        }
    }

    /// Counts an error of the system, and says what it is.
    fn fail(&mut self, error: &io::Error, may_miss: bool) -> DiskError
        ensures counted { self.new ≡ tallied self.old (is_fault result) (is_want result) (is_lack result) }
        ensures there { may_miss ≡ false → is_lack result ≡ false }
    {
        let cause = cause(error, may_miss);
        self.tally.count(cause);
        cause
    }

    /// Makes a new name certain, or that one is gone.
    fn sync_names(&mut self) -> Result<(), DiskError>
        ensures counted { self.new ≡ tallied self.old (is_failed result) (is_memory result) (is_missing result) }
        ensures never_missing { NeverMissing result }
    {
        match self.folder.sync_names() {
            Ok(()) => Ok(()),
            Err(error) => Err(self.fail(&error, false)),
        }
    }
}

impl<R: Files<File = File> + AllocGlobal + Clone + Drop> Disk for FolderDisk<R> {
    ghost state = { λ d. record { files = None; may_leave = λ _. Unit {0}; moment = 0; left_since = λ _ _. Unit {0}; faults = d.faults; wants = d.wants; lacks = d.lacks } };

    ghost keeps = { NoneFell };

    fn size(&mut self, name: &str) -> Result<u64, DiskError> {
        match self.folder.size(name) {
            Ok(size) => Ok(size),
            Err(error) => Err(self.fail(&error, true)),
        }
    }

    fn read_at(&mut self, name: &str, at: u64, room: &mut [u8]) -> Result<usize, DiskError> {
        let answer = match self.folder.read(name, at, room) {
            Ok(count) => Ok(count),
            Err(error) => Err(cause(&error, true)),
        };
        self.tally.tell_read(room.len(), answer)
    }

    fn write_at(&mut self, name: &str, at: u64, bytes: &[u8]) -> Result<(), DiskError> {
        match self.folder.write(name, at, bytes) {
            Ok(()) => Ok(()),
            Err(error) => Err(self.fail(&error, false)),
        }
    }

    fn sync(&mut self, name: &str) -> Result<(), DiskError> {
        match self.folder.sync(name) {
            Ok(()) => Ok(()),
            Err(error) => Err(self.fail(&error, true)),
        }
    }

    fn rename(&mut self, from: &str, to: &str) -> Result<(), DiskError> {
        match self.folder.rename(from, to) {
            Ok(()) => self.sync_names(),
            Err(error) => Err(self.fail(&error, true)),
        }
    }

    fn remove(&mut self, name: &str) -> Result<(), DiskError> {
        match self.folder.remove(name) {
            Ok(()) => self.sync_names(),
            Err(error) => Err(self.fail(&error, true)),
        }
    }

    fn names(&mut self) -> Result<Vec<String>, DiskError> {
        match self.folder.names() {
            Ok(names) => Ok(names),
            Err(error) => Err(self.fail(&error, false)),
        }
    }

    ghost as_it_reads = { λ _. tt };

    ghost counts_now = { λ _ _ _ _ _. tt };

    ghost only_now = { λ _ _ _. tt };

    ghost keeps_itself = { none_fell_itself };

    ghost keeps_on = { none_fell_on };

    ghost never_falls = { λ _ _ kept. record { tells = refl; faults = kept.faults; wants = kept.wants; lacks = kept.lacks } };
}
