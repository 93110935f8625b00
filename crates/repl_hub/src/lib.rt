//! A node and those whom it serves as one machine: the node's log and slots, the sessions that are connected, and the commits
//! that wait for its standbys.
//!
//! `HubState` takes one `HubEvent` at a time and gives a `HubReply`. `specs/Step.antt` says event by event what becomes of a hub
//! (`HubStep`), on plain data: the node's own steps (`repl_node`), those of sessions and tickets (`repl_sync`), and what ties both.
//! No report counts past the flushed end, a new timeline forgets reports, nobody waits on a standby, and a commit waits only
//! where it is flushed. `Hub` is what sessions stand on: whatever makes events in one order, be it a hub of one's own (`SoloHub`)
//! or one that threads share. `specs/Commit.antt` says which events a commit is, and `commit_on` shows a caller. Questions are
//! quiet events, for which nobody else is woken (`HubEvent::is_quiet`).
//!
//! ```text
//! let mut hub = HubState::new(alloc, node);
//! hub.step(HubEvent::Connect { name, replication: true });    // HubReply::Connect(Ok(1))
//! hub.step(HubEvent::Streaming { session: 1, tli });
//! hub.step(HubEvent::Append(item));                           // HubReply::Append(Ok(end))
//! ```
#![tactic(auto)]

mod asking;
mod commit;
mod event;
mod hub;
mod laws;
mod link;
mod log;
mod pass;
mod reply;
mod sessions;
mod slots;
mod solo;
mod waits;

pub use asking::{append, cancel, flush, look, prepare, wait};
pub use commit::{Acked, CommitFault, commit_on};
pub use event::HubEvent;
pub use hub::HubState;
pub use laws::{
    flushed_end_falls_by_switch, quiet_events_move_nothing, released_was_flushed, waits_are_certain,
};
pub use link::{LAST_SESSION, ORDINARY_LIMIT, REPLICATION_LIMIT};
pub use log::READ_LIMIT;
pub use pass::Hub;
pub use reply::{ConnectFault, HubReply, HubStatus, LogRead, SlotPlace, WaitFault};
pub use solo::{SoloHub, SoloPass};
