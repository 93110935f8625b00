//! Text fields of the protocol: bytes without a zero byte, since a zero byte ends a string on the wire.
//!
//! PostgreSQL's names, values and commands are strings in no stated encoding, so a `Text` need not be
//! UTF-8. Contracts see a `Text` as the list of its bytes. Beside it stands the rule for names of replication slots.
//! Stands on std alone.
//!
//! ```text
//! let name = Text::literal(alloc, "application_name")?;
//! let sent = Text::new(bytes).ok_or("a zero byte in a value")?;
//! assert_eq!(rt; sent == name, sent.as_slice() == b"application_name");
//! ```
#![tactic(auto)]

mod slot_name;
mod text;

pub use slot_name::{SLOT_NAME_LIMIT, is_slot_name};
pub use text::{Text, is_text};
