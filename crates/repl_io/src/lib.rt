//! Where bytes come from and go to: sources, sinks, and links in memory for tests.
//!
//! `Source` and `Sink` say in their contracts what a read and a write do, as far as the object tells
//! its bytes, and that a fault is answered only where the object counted one. Code that is generic over
//! them cannot invent a fault or lose a byte. `SteadyLink` and `ScriptLink` are both in memory and tell
//! everything. `StdSource` and `StdSink` adapt std's readers and writers: a read or a write of theirs says
//! what the reader or the writer tells, and to generic code they tell no bytes. A real file or terminal
//! tells nothing at all, so what it holds is trusted. Stands on `repl_effects`.
//!
//! ```text
//! let mut link = SteadyLink::new(alloc, input)?; // its input is the bytes 1, 2 and 3
//! let mut room = [0; 2];
//! link.read(&mut room);                          // Got::Bytes(2), and the room is 1, 2
//! write_all(&mut link, b"abc");                  // Sent::All, and link.written() is "abc"
//! ```
#![tactic(auto)]

mod copies;
mod link;
mod script;
mod sink;
mod source;
mod std_stream;
mod steady;

pub use link::Link;
pub use script::{LinkStep, ScriptLink};
pub use sink::{Put, Sent, Sink, write_all};
pub use source::{Got, Source};
pub use std_stream::{StdSink, StdSource};
pub use steady::SteadyLink;
