//! How a write of a disk in memory is taken back.
ghost use Rattle.std.specs.Prelude.{◌≡◌, ◌+◌, ◌≤◌, IfOk, length};
ghost use Rattle.repl_disk.specs.Stored.{undo_of, unwritten};

use crate::bytes::write_over;
use std::alloc::{AllocError, Global};
use std::marker::Model;

/// What a write wrote over.
#[derive(Drop)]
pub(crate) struct Undo {
    /// The first place that was written, or the file's end where that is before it.
    at: usize,
    /// The bytes that stood there.
    cut: Vec<u8>,
    /// How many bytes the file had.
    len: usize,
}

impl Model for Undo {
    ghost use Rattle.repl_disk.specs.Stored.{Cut};

    ghost Value = { Cut };

    ghost view = { λ u. record { at = u.at; cut = u.cut.items; len = u.len } };
}

impl Undo {
    /// How to take back a write of so many bytes at this place into a file with these bytes.
    pub(crate) fn of(
        alloc: Global,
        bytes: &[u8],
        at: usize,
        count: usize,
    ) -> Result<Undo, AllocError>
        ensures { IfOk result (λ undo. undo ≡ undo_of bytes.now at count) }
    {
        let at = at.min(bytes.len());
        let rest = &bytes[at..];
        let cut = rest[..count.min(rest.len())].to_vec(alloc)?;
        let len = bytes.len();
        Ok(Undo { at, cut, len })
    }

    /// Takes the write back: the bytes are those from before it. Takes no memory.
    pub(crate) fn revert(&self, bytes: &mut Vec<u8>)
        requires { self.now.at + length self.now.cut ≤ length bytes.old.items }
        ensures { bytes.new.items ≡ unwritten self.now bytes.old.items }
    {
        write_over(bytes, self.at, &self.cut);
        bytes.truncate(self.len);
    }
}
