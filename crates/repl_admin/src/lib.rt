//! The tools of an operator on the node of a disk: it is made, looked at, and judged.
//!
//! `init` makes a node, `status` opens it and prints what it is and how far its log stands, and `check` walks over its whole
//! log. Each takes the disk, writes lines into a sink, and hands the disk back beside how it ended. `specs/Tending.antt` says
//! what each end means: what the files of the disk stand for, which lines were written, and of a damaged node the first
//! file and place that are wrong. Stands on `repl_node`, on `repl_store` and `repl_check`, which judge the whole log, and on
//! `repl_exit`, whose reasons of damage it tells.
//!
//! ```text
//! let (end, disk) = init(alloc, disk, Role::Primary, 7, 0xd116, &mut out); // Tended::Done, and "ok"
//! let (end, disk) = check(alloc, disk, &mut out); // "ok" and "7 primary 1 0/1000000 0/1000000 0/1000000"
//! ```
#![tactic(auto)]

mod damage;
mod judging;
mod lines;
mod making;
mod refusal;
mod telling;
mod tended;

pub use judging::check;
pub use making::init;
pub use telling::status;
pub use tended::Tended;
