//! What the programs do, from words and bytes to a status: the top calls, which a `main` of a few lines
//! makes over real streams and a real folder.
//!
//! `run_tool` is the command line of `pgnode` but for serving. It reads the words by a table (`specs/Words.antt`), does what
//! they say over a source, a sink and a disk, which it hands back, and answers a `Status` of `repl_exit`. Its contract
//! says for each command line how it ends (`specs/Tool.antt`), by the definitions of the crates that do the work:
//! `repl_identify`, `repl_print` and `repl_admin`. `folder_of` and `disk_use` tell a main which folder it is to open, and whether.
//!
//! ```text
//! // The words are `init`, `primary` and `7`.
//! let (status, disk) = run_tool(alloc, &words, &mut input, &mut out, disk); // Status::Ok
//! out.written()                                                             // "ok" and a line feed
//! ```
#![tactic(auto)]

mod ends;
mod folder;
mod kinds;
mod table;
mod task;
mod tool;

pub use folder::{DiskUse, disk_use, folder_of};
pub use repl_exit::{DamageReason, Status, status_line, status_number};
pub use repl_identify::SystemIdentity;
pub use tool::run_tool;
