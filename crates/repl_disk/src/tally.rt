//! How many calls of a disk went wrong, and how.
ghost use Rattle.std.specs.Prelude.{◌≡◌, length};
ghost use Rattle.repl_disk.specs.Answers.{is_fault, is_want, is_lack, is_failed, is_memory, is_missing, is_short};
ghost use Rattle.repl_disk.specs.Tally.{tallied};

use crate::disk::DiskError;
use repl_effects::Count;
use std::marker::Model;

/// How many calls answered each error. A read of fewer bytes than it had room for counts as a missing file does.
#[derive(Drop)]
pub(crate) struct Tally {
    faults: Count,
    wants: Count,
    lacks: Count,
}

impl Model for Tally {
    ghost use Rattle.std.specs.Prelude.{◌^◌, ◌<◌};
    ghost use Rattle.repl_disk.specs.Tally.{Tallied};

    ghost Value = { Tallied };

    ghost view = { λ t. record { faults = t.faults; wants = t.wants; lacks = t.lacks } };

    ghost invariant = { λ t. (t.faults < 2 ^ 64) × (t.wants < 2 ^ 64) × (t.lacks < 2 ^ 64) };
}

impl Tally {
    /// No call so far.
    pub(crate) fn new() -> Tally
        ensures { result ≡ record { faults = 0; wants = 0; lacks = 0 } }
    {
        Tally {
            faults: Count::new(),
            wants: Count::new(),
            lacks: Count::new(),
        }
    }

    /// Counts the error.
    pub(crate) fn count(&mut self, error: DiskError)
        ensures { self.new ≡ tallied self.old (is_fault error) (is_want error) (is_lack error) }
    {
        match error {
            DiskError::Missing => self.lacks.raise(),
            DiskError::Failed => self.faults.raise(),
            DiskError::Memory => self.wants.raise(),
        }
    }

    /// Counts what went wrong, and gives the answer on.
    pub(crate) fn tell<T>(&mut self, answer: Result<T, DiskError>) -> Result<T, DiskError>
        ensures answer { result ≡ answer }
        ensures counted { self.new ≡ tallied self.old (is_failed answer) (is_memory answer) (is_missing answer) }
    {
        if let Err(error) = &answer {
            self.count(*error);
        }
        answer
    }

    /// The same of a read into so much room.
    pub(crate) fn tell_read(
        &mut self,
        room: usize,
        answer: Result<usize, DiskError>,
    ) -> Result<usize, DiskError>
        ensures answer { result ≡ answer }
        ensures counted { self.new ≡ tallied self.old (is_failed answer) (is_memory answer) (is_short room answer) }
    {
        match answer {
            Ok(count) if count < room => self.count(DiskError::Missing),
            Ok(_) => {}
            Err(error) => self.count(error),
        }
        answer
    }
}
