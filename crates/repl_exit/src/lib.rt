//! How the programs end: a status, its number for the caller's shell, and its line for people.
//!
//! `status_number` is a program's exit status, and `status_line` the line that it prints on standard error. Both are
//! defined in `specs/Status.antt`: a line is the status's name and its values, each after a space; numbers are decimal,
//! positions of the log as `Lsn` prints them, and a value that is itself a reason is its name and its values in the same
//! way. Stands on `repl_text`, `repl_lsn`, `repl_page` and `repl_record`, whose reasons a status may tell.
//!
//! ```text
//! let status = Status::Damaged { name, place: 4, why: DamageReason::Control };
//! status_number(&status)      // 8
//! status_line(alloc, &status) // "Damaged control 4 Control" and a line feed
//! ```
#![tactic(auto)]

mod damage;
mod status;

pub use damage::DamageReason;
pub use status::{Status, status_line, status_number};
