//! The answer of a server to a client that asks who it is.
//!
//! `identify` reads one session from a source: any number of requests for encryption, a startup packet for physical
//! replication, any number of queries IDENTIFY_SYSTEM, and the end. It writes what a server with a `SystemIdentity` answers.
//! Its contract is one record, `Identified` in `specs/Identify.antt`: a `Conversion` of `repl_filter`, and that the answer
//! reads back as its messages. Which inputs are a session, and where another is refused, stands in `specs/Session.antt`, and
//! the answer, message by message, in `specs/Answer.antt`. Stands on `repl_filter`, `repl_wire` and `repl_cmd`.
//!
//! ```text
//! let identity = SystemIdentity { system, timeline, flushed };
//! identify(alloc, &identity, &mut link, &mut out) // Converted::Done
//! out.written()                                   // the greeting, and a row for each question
//! ```
#![tactic(auto)]

mod answer;
mod answering;
mod identification;
mod identity;
mod laws;
mod parameters;
mod session;
mod stage;

pub use answering::INPUT_LIMIT;
pub use identification::identify;
pub use identity::SystemIdentity;
pub use laws::one_session;
