//! The calls that a disk in memory did. Only proofs read them: they take no memory, and keeping them takes no time.
ghost use Rattle.std.specs.Prelude.{◌≡◌, List, [], ◌∷◌};
ghost use Rattle.std.specs.Borrow.{ftrue};
ghost use Rattle.repl_disk.specs.Calls.{Done};

use crate::memory_file::File;
use std::marker::Model;

/// The latest call comes first.
#[derive(Drop)]
pub(crate) struct Past {
    ghost calls: { List Done },
}

impl Model for Past {
    ghost also_owns = { λ _. ftrue };
}

// It owns nothing.
unsafe impl Send for Past {}

unsafe impl Sync for Past {}

/// A call, and the files before it where it changes what they read.
#[derive(Drop)]
pub(crate) enum Note<'a> {
    Write {
        files: &'a [File],
        name: &'a str,
        at: usize,
        bytes: &'a [u8],
    },
    Sync {
        name: &'a str,
    },
    Rename {
        files: &'a [File],
        from: &'a str,
        to: &'a str,
    },
    Remove {
        files: &'a [File],
        name: &'a str,
    },
}

impl Past {
    ghost use Rattle.repl_disk.specs.Past.{call_of};

    /// No call so far.
    pub(crate) fn new() -> Past
        ensures { result.calls ≡ [] }
    {
        Past {}
    }

    /// With this call more.
    pub(crate) fn then(&self, _note: &Note<'_>) -> Past
        ensures { result.calls ≡ call_of _note.now ∷ self.now.calls }
    {
        Past {}
    }
}
