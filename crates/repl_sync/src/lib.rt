//! Who is waited for: sessions, waits and certificates of synchronous replication (PostgreSQL 17 manual, section
//! "Synchronous Replication").
//!
//! A `SyncState` has the sessions of standbys with what they have reported, the list in force, and a ticket for each
//! commit that waits. Each call is one event, and its contract is one case of `SyncStep` (`specs/Sync.antt`): a refusal
//! changes nothing, and after any other event exactly those waits are released at whose end the list is met by the
//! sessions that stream. A ticket that was released has a certificate: the list of that moment, and those who met it.
//! `prepare`, `connect` and `set_names` take all memory that later releases need, so that no other call takes any. The
//! laws of steps stand on functions of their own: certificates are sound, a released ticket stays so until it is
//! answered, once, nobody waits without names, a new timeline leaves no report after, and no ticket is given twice.
//! Stands on `repl_names`.
//!
//! ```text
//! let mut state = SyncState::new(alloc);
//! state.set_names(alloc, &list)?;
//! state.connect(alloc, 1, b"n2")?;
//! state.streaming(1)?;
//! let ticket = state.prepare(alloc)?;        // before the commit's record is appended
//! state.wait(ticket, end, Mode::Flush)?;     // once it is flushed here
//! state.report(1, end, end, end)?;           // the standby has flushed it too
//! state.look(ticket)                         // Look::Released, with its certificate
//! ```
#![tactic(auto)]

mod certificate;
mod change;
mod fault;
mod filling;
mod holding;
mod laws;
mod order;
mod parts;
mod prepare;
mod reach;
mod release;
mod room;
mod session;
mod state;
mod ticket;

pub use certificate::{Certificate, Counted, CountedList, Look};
pub use fault::SyncFault;
pub use laws::{
    answered_once, certificate_is_sound, new_timeline_forgets, none_waits_without_names,
    released_stays, tickets_differ,
};
pub use session::FeedbackValue;
pub use state::SyncState;
