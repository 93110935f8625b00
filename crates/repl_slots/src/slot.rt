//! A replication slot.
ghost use Rattle.std.specs.Prelude.{◌≡◌, Some};
ghost use Rattle.repl_slots.specs.Slot.{acquired, confirmed, held, holder, is_named, is_session, released, risen, settled};

use repl_lsn::Lsn;
use repl_text::Text;

/// The most slots that there may be: `max_replication_slots`.
pub const SLOT_LIMIT: usize = 10;

// What a file holds depends on this number.
const _: () = prove!(SLOT_LIMIT == 10);

/// A replication slot: from its restart position on the log is kept.
#[derive(Debug, Drop)]
pub struct Slot {
    pub name: Text,
    /// The session that made it for itself, where it is temporary.
    pub temporary: Option<u64>,
    /// The session that has it in use.
    pub owner: Option<u64>,
    /// From here on its reader still needs the log.
    pub restart: Option<Lsn>,
    /// The restart position that was saved last. A temporary slot has none.
    pub saved: Option<Lsn>,
}

impl Slot {
    /// The position that holds the log back: the one that was saved, and of a temporary slot its restart position.
    pub(crate) fn held(&self) -> Option<Lsn>
        ensures { result ≡ held self.now }
    {
        if self.temporary.is_some() {
            self.restart
        } else {
            self.saved
        }
    }

    /// The session that keeps this one off the slot: its owner, or else another one that made it for itself.
    pub(crate) fn holder(&self, session: u64) -> Option<u64>
        ensures { result ≡ holder self.now session }
    {
        match (self.owner, self.temporary) {
            (Some(owner), _) => Some(owner),
            (None, Some(maker)) if maker != session => Some(maker),
            _ => None,
        }
    }

    /// Whether it has this name.
    pub(crate) fn is_named(&self, name: &[u8]) -> bool
        ensures { result ≡ is_named name.now self.now }
    {
        self.name.as_slice() == name
    }

    /// Whether this session made it for itself.
    pub(crate) fn is_temporary_of(&self, session: u64) -> bool
        ensures { result ≡ is_session session self.now.temporary }
    {
        is_session(self.temporary, session)
    }

    /// Gives it to this session where it has the name.
    pub(crate) fn acquire(&mut self, name: &[u8], session: u64)
        ensures { self.new ≡ acquired name.now session self.old }
    {
        if self.is_named(name) {
            self.owner = Some(session);
        }
    }

    /// Takes it from this session.
    pub(crate) fn release(&mut self, session: u64)
        ensures { self.new ≡ released session self.old }
    {
        if is_session(self.owner, session) {
            self.owner = None;
        }
    }

    /// Raises its restart position to this one where the session owns it. A slot without one gets it.
    pub(crate) fn confirm(&mut self, session: u64, at: Lsn)
        ensures { self.new ≡ confirmed session at self.old }
    {
        if is_session(self.owner, session) {
            self.restart = Some(risen(self.restart, at));
        }
    }

    /// Takes its restart position as saved, unless it is temporary.
    pub(crate) fn settle(&mut self)
        ensures { self.new ≡ settled self.old }
    {
        if self.temporary.is_none() {
            self.saved = self.restart;
        }
    }
}

/// Whether the session is the one, if there is one.
fn is_session(one: Option<u64>, session: u64) -> bool
    ensures { result ≡ is_session session one }
{
    match one {
        Some(other) => other == session,
        None => false,
    }
}

/// The greater of the two positions, or the second where there is no first.
fn risen(before: Option<Lsn>, at: Lsn) -> Lsn
    ensures { Some result ≡ risen before at }
{
    match before {
        Some(before) if at.0 <= before.0 => before,
        _ => at,
    }
}
