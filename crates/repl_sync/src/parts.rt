use crate::holding::Holding;
use crate::session::Entry;
use repl_names::{Candidate, StandbyList};

/// All that is kept of sessions and tickets.
#[derive(Drop)]
pub(crate) struct Parts {
    /// The sessions, in the order in which they were connected.
    pub(crate) entries: Vec<Entry>,
    /// The list in force.
    pub(crate) list: StandbyList,
    /// The tickets, in the order in which they were given.
    pub(crate) holdings: Vec<Holding>,
    /// The last ticket given.
    pub(crate) last: u64,
    /// Room for the candidates, in the order in which the list takes them.
    pub(crate) order: Vec<Candidate>,
}
