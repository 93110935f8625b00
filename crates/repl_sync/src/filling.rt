//! Who is told of in a certificate, in the room that is there for it.
ghost use Rattle.std.specs.Prelude.{◌≡◌, ◌+◌, ◌<◌, ◌≤◌, [], ◌∷◌, ◌++◌, min, map, length, All, vec_len, vec_capacity};
ghost use Rattle.repl_text.specs.Text.{IsText};
ghost use Rattle.repl_names.specs.Quorum.{position, reaches};
ghost use Rattle.repl_sync.specs.State.{name_of};
ghost use Rattle.repl_sync.specs.Sync.{counted_as};
ghost use Rattle.repl_sync.specs.Inside.{sessions_of, is_taken, taken, IsBlank, FitsNames};

use crate::certificate::Counted;
use crate::session::Entry;
use repl_lsn::Lsn;
use repl_names::{Candidate, Method, Mode, StandbyList};
use repl_text::Text;

/// Tells of the first candidates in order that the list takes, as many as it demands. Takes no memory.
pub(crate) fn fill(
    counted: &mut Vec<Counted>,
    names: &mut Vec<Vec<u8>>,
    list: &StandbyList,
    order: &[Candidate],
    entries: &[Entry],
    mode: Mode,
    end: u64,
)
    requires empty { counted.old.items ≡ [] }
    requires places { min list.now.number (length order.now) ≤ vec_capacity counted.old }
    requires names { min list.now.number (length order.now) ≤ vec_len names.old }
    requires blank { All (λ b. IsBlank b × FitsNames (sessions_of entries.now) b) names.old.items }
    ensures { counted.new.items ≡ map (counted_as (sessions_of entries.now) mode) (taken list.now order.now mode end) }
{
    let number = list.number() as usize;
    let method = list.method();
    for candidate in order {
        if counted.len() < number && is_taken(method, candidate, mode, end) {
            count(counted, names, candidate, entries, mode);
        }
    }
}

/// Whether the list takes this candidate: by ANY where it has the position.
fn is_taken(method: Method, candidate: &Candidate, mode: Mode, end: u64) -> bool
    ensures { result ≡ is_taken method mode end candidate.now }
{
    match method {
        Method::First => true,
        Method::Any => position(candidate, mode).0 >= end,
    }
}

/// The position that counts in this mode.
fn position(candidate: &Candidate, mode: Mode) -> Lsn
    ensures { result ≡ position mode candidate.now }
{
    match mode {
        Mode::Write => candidate.written,
        Mode::Flush => candidate.flushed,
        Mode::Apply => candidate.applied,
    }
}

/// Tells of one more.
fn count(
    counted: &mut Vec<Counted>,
    names: &mut Vec<Vec<u8>>,
    candidate: &Candidate,
    entries: &[Entry],
    mode: Mode,
)
    requires place { vec_len counted.old < vec_capacity counted.old }
    requires name { 0 < vec_len names.old }
    requires blank { All (λ b. IsBlank b × FitsNames (sessions_of entries.now) b) names.old.items }
    ensures items { counted.new.items ≡ counted.old.items ++ counted_as (sessions_of entries.now) mode candidate.now ∷ [] }
    ensures room { vec_capacity counted.new ≡ vec_capacity counted.old }
    ensures names { vec_len names.new + 1 ≡ vec_len names.old }
    ensures blank { All (λ b. IsBlank b × FitsNames (sessions_of entries.now) b) names.new.items }
{
    let room = names.take_last();
    let name = name_in(room, name_of(entries, candidate.session));
    counted.push_reserved(Counted {
        session: candidate.session,
        name,
        position: position(candidate, mode),
    });
}

/// The name as a text of its own, in this room.
fn name_in(mut room: Vec<u8>, name: &[u8]) -> Text
    requires empty { IsBlank room }
    requires fits { length name.now ≤ vec_capacity room }
    requires text { IsText name.now }
    ensures { result ≡ name.now }
{
    let _ = room.extend_from_slice(name);
    Text::new(room).unwrap()
}

/// The name of the session with this number.
fn name_of(entries: &[Entry], session: u64) -> &[u8]
    ensures value { result.now ≡ name_of (sessions_of entries.now) session }
    ensures text { IsText result.now }
{
    for entry in entries {
        if entry.candidate.session == session {
            return entry.name.as_slice();
        }
    }
    b"".as_slice()
}
