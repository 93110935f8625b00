//! A ticket, with the room for its certificate.
use crate::certificate::Counted;
use repl_names::{Mode, StandbyList};

/// How far a ticket has come.
#[derive(Clone, Copy)]
pub(crate) enum Progress {
    Prepared,
    Waiting(u64, Mode),
    Released(u64, Mode),
    Cancelled,
}

/// A ticket, and the room for its certificate: the list in force, a place for each session that can count, and as many
/// names. Who is released keeps the list of that moment, and those that counted.
#[derive(Drop)]
pub(crate) struct Holding {
    pub(crate) ticket: u64,
    pub(crate) progress: Progress,
    pub(crate) list: StandbyList,
    pub(crate) counted: Vec<Counted>,
    pub(crate) names: Vec<Vec<u8>>,
}
