//! What a store has in memory.
ghost use Rattle.std.specs.Prelude.{◌≡◌, ◌≤◌, ◌<◌, ◌+◌, ◌%◌};
ghost use Rattle.repl_store.specs.Tail.{PutsBack};

use repl_control::Control;
use repl_lsn::{History, Lsn, SegSize};
use std::marker::Model;

/// A store without its disk.
#[derive(Drop)]
pub(crate) struct Head {
    pub(crate) size: SegSize,
    /// As it stands on the disk.
    pub(crate) control: Control,
    pub(crate) history: History,
    /// Where the bytes end that were written.
    pub(crate) written: Lsn,
    /// Where those end that are certain on the disk.
    pub(crate) synced: Lsn,
    /// The name of the file that has bytes which are not.
    pub(crate) unsynced: Option<String>,
}

impl Model for Head {
    ghost use Rattle.std.specs.Prelude.{string_bytes};
    ghost use Rattle.std.specs.Option.{option_map};
    ghost use Rattle.repl_store.specs.Head as spec;

    ghost Value = { spec.Head };

    ghost view = { λ h. record { size = h.size; control = h.control; path = h.history; written = h.written; synced = h.synced; unsynced = option_map string_bytes h.unsynced } };

    ghost invariant = { λ h. spec.IsHead (record { size = h.size; control = h.control; path = h.history; written = h.written; synced = h.synced; unsynced = option_map string_bytes h.unsynced }) };
}

impl Head {
    /// Where the position stands in the file of its segment.
    pub(crate) fn place_in_segment(&self, at: Lsn) -> u64
        ensures { result ≡ at % self.now.size }
    {
        at.0 % u64::from(self.size.bytes())
    }

    /// How many bytes the segment of this position has from it on.
    pub(crate) fn left_in_segment(&self, at: Lsn) -> usize
        ensures value { result + at % self.now.size ≡ self.now.size }
        ensures some { 0 < result }
    {
        (u64::from(self.size.bytes()) - self.place_in_segment(at)) as usize
    }

    /// Forgets the bytes past this position.
    pub(crate) fn put_back(&mut self, written: Lsn)
        requires flushed { self.old.control.flushed ≤ written }
        requires below { written ≤ self.old.written }
        ensures { PutsBack self.old self.new written }
    {
        self.written = written;
        if written < self.synced {
            self.synced = written;
        }
    }
}
