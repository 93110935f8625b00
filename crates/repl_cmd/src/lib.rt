//! Commands of replication connections and statements of ordinary ones (PostgreSQL 17 manual, section "Streaming
//! Replication Protocol"), as values and as texts.
//!
//! `parse_command` reads exactly the texts that say a command by the rows of `specs/Command.antt`, with any
//! spacing, keywords in any case and names and values in either of their quotings. Any other text it refuses at the
//! first token with which no command goes on, by the cause that `specs/Refusal.antt` gives. `print_command` prints
//! the one spelling of a command, which is read back as that command. Reading does not depend on the kind of the
//! connection. Stands on `repl_token`, `repl_text`, `repl_lsn` and `repl_names`, and on the kit's `bytes`, `hex` and
//! `thiserror`.
//!
//! ```text
//! match parse_command(alloc, b"TIMELINE_HISTORY 2;")? {
//!     Command::TimelineHistory(tli) => send_history(tli),
//!     other => ..
//! }
//! ```
#![tactic(auto)]

mod command;
mod create;
mod fault;
mod laws;
mod lexicon;
mod name;
mod operand;
mod parse;
mod print;
mod put;
mod setting;
mod state;
mod step;
mod stream;
mod token;
mod value;
mod wanted;

pub use command::Command;
pub use fault::{CmdFault, Unsupported};
pub use laws::{one_command, printed_is_read, refused_front};
pub use name::{ParameterName, SlotName};
pub use parse::parse_command;
pub use print::print_command;
