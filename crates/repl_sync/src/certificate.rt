//! What a commit is told of its wait.
ghost use Rattle.std.specs.Prelude.{◌≡◌};

use repl_lsn::Lsn;
use repl_names::{Mode, StandbyList};
use repl_text::Text;
use std::marker::Model;

/// A session by which a list was met.
#[derive(Debug, Drop)]
pub struct Counted {
    /// The session's number.
    pub session: u64,
    /// The name of its standby.
    pub name: Text,
    /// How far the standby was, by what it had reported.
    pub position: Lsn,
}

/// The sessions by which a list was met, in the order in which the list takes them.
#[derive(Debug, Drop)]
pub struct CountedList {
    items: Vec<Counted>,
}

impl Model for CountedList {
    ghost use Rattle.std.specs.Prelude.{List};
    ghost use Rattle.repl_sync.specs.declared.certificate.Counted.{Counted};

    ghost Value = { List Counted };

    ghost view = { λ c. c.items.items };
}

impl CountedList {
    /// The list of these.
    pub(crate) fn of(items: Vec<Counted>) -> CountedList
        ensures { result ≡ items.items }
    {
        CountedList { items }
    }

    /// The sessions.
    pub fn as_slice(&self) -> &[Counted]
        ensures { result.now ≡ self.now }
    {
        &self.items
    }
}

/// Why a commit was released: the list that was in force then, and who met it.
#[derive(Debug, Drop)]
pub struct Certificate {
    /// What of the reports counted.
    pub mode: Mode,
    /// The end of the commit, up to which the list was met.
    pub end: Lsn,
    /// The list that was in force.
    pub list: StandbyList,
    /// Those who met it: as many as it demands.
    pub counted: CountedList,
}

/// What has become of a commit that waits.
#[derive(Debug, Drop)]
pub enum Look {
    /// The list has not been met since the wait began, and nobody cancelled it.
    NotYet,
    /// The list was met.
    Released(Certificate),
    /// The wait was cancelled before the list was met.
    Cancelled,
    /// No such ticket waits, was released or was cancelled.
    Unknown,
}
