//! What both machines reply, so that it can be compared.
use repl_names::Mode;
use repl_sync::SyncFault;

/// The reply to an event.
#[derive(PartialEq, Drop)]
pub enum Reply {
    Done,
    Given(u64),
    Refused(SyncFault),
    NotYet,
    Released(Told),
    Cancelled,
    Unknown,
}

/// A certificate: the mode, the end, the list's place in the table, and those that counted.
#[derive(PartialEq, Drop)]
pub struct Told {
    pub mode: Mode,
    pub end: u64,
    pub list: usize,
    pub counted: Vec<Seen>,
}

/// A session that counted.
#[derive(Clone, Copy, PartialEq, Eq)]
pub struct Seen {
    pub session: u64,
    pub name: u8,
    pub position: u64,
}
