//! Whether a call of a store may be made, for programs whose words or rows ask for it.
//!
//! A store's calls ask that their positions fit; `can_write`, `can_read`, `can_flush` and `can_raise` are the tests of that,
//! and each answers yes exactly where the call may be made. `can_switch` answers yes only there, and no also where there is
//! no memory for the history's text. `child_at` makes a history to switch to. Stands on `repl_store` and `repl_control`.
//!
//! ```text
//! if can_flush(&store, Role::Primary, whole, prev) {
//!     store.flush(whole, prev)?;
//! }
//! ```
#![tactic(auto)]

mod checks;
mod switching;

pub use checks::{can_flush, can_raise, can_read, can_write};
pub use switching::{can_switch, child_at};
