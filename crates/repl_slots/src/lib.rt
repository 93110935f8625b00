//! Replication slots: how far the log has to be kept for whoever reads it (PostgreSQL 17 manual, section "Replication
//! Slots").
//!
//! `Slots` is a list of at most ten slots in the order of creation. A slot keeps the log from its restart position on, and
//! what holds the log back is the position that was saved: `save` writes the list into the file `slots` so that a crash at
//! any moment leaves the list of before or the new one, and `mount` reads it. A temporary slot is not written, and goes
//! when its session ends. What calls make of the list stands in `specs/Slot.antt`, what the file is in
//! `specs/SlotFile.antt`, and what a disk stores in `specs/Stored.antt`. Stands on `repl_disk`, `repl_lsn`, `repl_text`,
//! `repl_effects` and the kit's `byteorder` and `thiserror`.
//!
//! ```text
//! let mut slots = Slots::mount(alloc, &mut disk)?;
//! slots.create(alloc, b"standby", false, session, Some(flushed))?;
//! slots.save(alloc, &mut disk)?;                           // from here on a crash leaves the slot
//! slots.floor_for()                                        // Some(flushed)
//! ```
#![tactic(auto)]

mod each;
mod fault;
mod find;
mod laws;
mod read;
mod slot;
mod slots;
mod spell;
mod store;

pub use fault::SlotFault;
pub use find::find_slot;
pub use laws::{
    confirmed_rises, floor_keeps, no_place, one_file, one_list, one_place, saved_is_mounted,
};
pub use read::read_slots;
pub use slot::{SLOT_LIMIT, Slot};
pub use slots::Slots;
pub use spell::spell_slots;
