//! Lists of synchronous standbys, and the count that decides what an acknowledged commit means
//! (PostgreSQL 17 manual, section "Synchronous Replication", and `synchronous_standby_names`).
//!
//! `parse_names` reads a list: it accepts exactly the texts of the grammar in `specs/Grammar.antt`, and
//! refuses any other at the first token with which no list goes on. `print_names` prints the one spelling
//! of a list, which is read back as that list. `priority` finds the entry that a standby's name matches.
//! `released` is the greatest position at which a list is met (`Met` in `specs/Quorum.antt`) by what the
//! standbys have reported, and `put_counted` gives those by which it is. Stands on `repl_token`, `repl_text` and `repl_lsn`.
//!
//! ```text
//! let list = parse_names(alloc, b"FIRST 1 (berlin, \"new york\")")?;
//! let place = priority(&list, b"berlin"); // 1
//! let end = released(&list, &sessions, Mode::Flush); // how far commits are confirmed
//! ```
#![tactic(auto)]

mod counting;
mod fault;
mod grammar;
mod laws;
mod length;
mod lexicon;
mod list;
mod matching;
mod parse;
mod print;
mod quorum;
mod setting;
mod token;

pub use counting::{are_different, insert_in_order, put_counted};
pub use fault::NamesFault;
pub use laws::{
    any_reached, counted_reach, met_below, met_forward, met_stays, met_without_names, one_counted,
    one_list, one_setting, printed_is_read, released_decides, released_stays,
};
pub use list::{Method, NUMBER_LIMIT, NameList, SPELLING_LIMIT, StandbyList};
pub use matching::priority;
pub use parse::parse_names;
pub use print::print_names;
pub use quorum::{Candidate, Mode, released};
pub use setting::Setting;
