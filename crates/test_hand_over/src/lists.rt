//! Lists of standbys, who waits for them, and slots.
ghost use Rattle.std.specs.Prelude.{◌≡◌};

use crate::crossing::there_and_back;
use repl_names::{Candidate, NameList, StandbyList};
use repl_slots::{Slot, Slots};
use repl_sync::{Certificate, CountedList, FeedbackValue, Look, SyncState};
use std::thread::Threads;

/// A list of standbys, the names on one, and a session that may count for one.
pub fn hand_lists<R: Threads>(
    rt: &R,
    list: StandbyList,
    names: NameList,
    candidate: Candidate,
) -> (StandbyList, NameList, Candidate)
    ensures { result ≡ (list, names, candidate) }
{
    (
        there_and_back(rt, list),
        there_and_back(rt, names),
        there_and_back(rt, candidate),
    )
}

/// The sessions and tickets of a server.
pub fn hand_sync<R: Threads>(rt: &R, state: SyncState) -> SyncState
    ensures { result ≡ state }
{
    there_and_back(rt, state)
}

/// What a commit is told of its wait, by whom its list was met, and what a standby says of its oldest transactions.
pub fn hand_certificates<R: Threads>(
    rt: &R,
    look: Look,
    certificate: Certificate,
    counted: CountedList,
    feedback: FeedbackValue,
) -> (Look, Certificate, CountedList, FeedbackValue)
    ensures { result ≡ (look, certificate, counted, feedback) }
{
    (
        there_and_back(rt, look),
        there_and_back(rt, certificate),
        there_and_back(rt, counted),
        there_and_back(rt, feedback),
    )
}

/// A slot, and all slots.
pub fn hand_slots<R: Threads>(rt: &R, slot: Slot, slots: Slots) -> (Slot, Slots)
    ensures { result ≡ (slot, slots) }
{
    (there_and_back(rt, slot), there_and_back(rt, slots))
}
