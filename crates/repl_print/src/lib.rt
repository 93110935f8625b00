//! Programs that print what an input says.
//!
//! `frames` prints a line for each message of a stream, `names` the spelling of a standby list, and `history` the canonical
//! text of a timeline's history. Each writes into a sink, and its contract is one record: `Framed` in `specs/Frames.antt`,
//! `Named` in `specs/Names.antt`, and `Historied` in `specs/Histories.antt`, which is a `Conversion` of `repl_filter`. They
//! say what was read and written, the cause of each end, and that an honest input is printed, or refused, where no object
//! fails. Stands on `repl_filter`, `repl_wire`, `repl_names` and `repl_lsn`.
//!
//! ```text
//! // The input is "1 0/3000000 moved" and a line feed.
//! history(alloc, own, &mut link, &mut out) // Converted::Done
//! out.written()                            // the canonical text of that history
//! ```
#![tactic(auto)]

mod framing;
mod histories;
mod naming;

pub use framing::frames;
pub use histories::history;
pub use naming::names;
