//! Which folder a command line is about.
ghost use Rattle.std.specs.Prelude.{◌≡◌};
ghost use Rattle.repl_args.specs.Words.{texts};
ghost use Rattle.repl_top.specs.Words.{IsFolder, UsesDisk};

use crate::task::read_task;
use repl_args::word_at;

/// The folder that the words name: the word after a first word `-D`, or `.`.
pub fn folder_of(words: &[String]) -> &str
    ensures { IsFolder (texts words.now) result.now }
{
    if words.len() > 1 && word_at(words, 0) == "-D" {
        word_at(words, 1)
    } else {
        "."
    }
}

/// What a command line asks of the folder.
#[derive(Clone, Copy, Debug, PartialEq, Eq)]
pub enum DiskUse {
    /// Nothing: a main need not open it.
    Nothing,
    /// A store is made in it, and the folder itself where it is not there.
    New,
    /// The store in it is looked at.
    Old,
}

/// What the words ask of the folder. Words that are no command line ask nothing of it.
pub fn disk_use(words: &[String]) -> DiskUse
    ensures { UsesDisk (texts words.now) result }
{
    match read_task(words) {
        Ok(task) => task.disk_use(),
        Err(_) => DiskUse::Nothing,
    }
}
