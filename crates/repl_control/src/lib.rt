//! The control file of a store: 56 bytes that say who the store is and how far it stands.
//!
//! A `Control` has a store's role, system identifier, timeline and page magic, and four positions. `write_control`
//! gives its one spelling; `read_control` reads exactly the spellings of controls that are right, and says of any
//! other bytes the first place that is wrong. `Control::is_fit` judges a control before it is written, and
//! `Control::fresh` is that of a new store. Which controls are right, their layout and what is wrong with other bytes
//! is said in `specs/Control.antt`, over the size of the log's segments; version 1 of the file is for segments of
//! `version_1_size`. Stands on `repl_lsn` and on the kit's `byteorder` and `thiserror`.
//!
//! ```text
//! let control = Control::fresh(Role::Primary, 7, 0xd116, version_1_size());
//! replace_by(&mut disk, "control", "control.tmp", &write_control(&control))?;
//! ```
#![tactic(auto)]

mod control;
mod fault;
mod fields;
mod laws;
mod read;
mod write;

pub use control::{CONTROL_SIZE, Control, Role, VERSION_1_SIZE, version_1_size};
pub use fault::ControlFault;
pub use laws::{one_control, one_control_fault, one_spelling, spelled_or_wrong, written_spells};
pub use read::read_control;
pub use write::write_control;
