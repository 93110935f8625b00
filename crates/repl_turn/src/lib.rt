//! One event at a time: threads share a `Turn` over a `Machine`, and `act` makes an event on it.
//!
//! All events of a turn stand in one history, each once, in the order in which they were made. It is legal: each reply
//! is one that the machine's relation `steps` gives there, from the state in which the machine came. The history is
//! kept nowhere and exists in the contracts alone, which are stated over plain data in `specs/History.antt`.
//! A `Pass` is what one caller knows: a beginning of the history, and the numbers under which its own events stand in
//! it. `act` tells the reply and the event's place; `split` makes a new pass for another thread, `join` takes one back
//! with what it knows, and `into_machine` takes the turn apart. The laws of histories are `each_entry_is_a_step`,
//! `beginnings_are_legal` and `quiet_events_change_nothing`; as lemmas they stand in `specs/Laws.antt`.
//!
//! ```text
//! let (turn, pass) = Turn::new(rt.alloc(), machine)?;
//! let (mut pass, other) = turn.split(pass);     // `other` goes to another thread
//! let acted = turn.act(&rt, &mut pass, event);  // acted.reply, and acted.at is its place
//! turn.wait_for_change(&rt, &mut pass);
//! let pass = turn.join(pass, other);
//! let machine = turn.into_machine(pass)?;
//! ```
//!
//! Callers take turns by tickets, first come, first served. A thread that waits sleeps after a short while, and giving
//! the turn on wakes the one that is next. `wait_for_change` sleeps until an event is made that is not quiet; a quiet
//! one wakes nobody there. It is not said that a wait ends, nor in which order the events of two passes come that
//! never met. But a pass that has seen n events makes its next one at place n or later. `ask_both` of
//! `test_system` shows a caller.
//! Stands on `atomic_table`.
#![tactic(auto)]

mod bell;
mod laws;
mod machine;
mod pass;
mod rule;
mod steps;
mod turn;

pub use laws::{beginnings_are_legal, each_entry_is_a_step, quiet_events_change_nothing};
pub use machine::{Entry, Machine};
pub use pass::Pass;
pub use turn::{Acted, NoMemory, Turn, Unfinished};
