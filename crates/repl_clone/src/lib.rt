//! Copies of the log that a store keeps, with which a standby begins.
//!
//! `copy_store` puts onto a disk what a store keeps there: the history of its timeline, its log from the floor to the flushed
//! end, segment by segment, and last, by one renaming, the control of a standby. A crash at any moment before leaves a disk
//! without a control, or with the one that it had, on which the copy can be begun again; a crash after it leaves the copy.
//! The source is only read. What a copy is, is said in `specs/Copied.antt`, over what files stand for in `repl_store`, and why
//! none is made in `specs/Causes.antt`. Stands on `repl_store`, `repl_disk`, `repl_lsn`, `repl_control` and `repl_effects`.
//!
//! ```text
//! let mut source = Store::mount(alloc, disk)?;
//! copy_store(alloc, &mut empty, &mut source)?;
//! let standby = Store::mount(alloc, empty)?;
//! ```
#![tactic(auto)]

mod control;
mod copy;
mod fault;
mod history;
mod pieces;
mod segments;
mod source;

pub use copy::copy_store;
pub use fault::CopyFault;
