//! The write-ahead log as a list of records: a walk over whole pieces of it, and the laws of where records end.
//!
//! `walk` takes a piece of the log, of any length, and answers whether all bytes since the walk began are a prefix of
//! records; the walker then keeps where the last whole record ends and starts. `specs/Walks.antt` says what a walker
//! that has gone through the log stands for, `specs/Faults.antt` where the log is wrong, and `specs/Timelines.antt` when
//! two paths are one on a part of it. Record ends themselves are those of `repl_record`, `specs/Log.antt`. What holds of
//! them when the log is cut, goes on, is counted from a later end, or is read along another path, is said by functions
//! that compute nothing. Stands on `repl_record`.
//!
//! ```text
//! let mut walker = Walker::new(whole, start_of_last, ident); // the log from its last known record end on
//! walk(&mut walker, tli, &piece)?;                           // and the next piece, and the next
//! walker.last_end()                                          // the greatest record end in all of them
//! ```
#![tactic(auto)]

mod end_laws;
mod past_any;
mod pieces;
mod rest;
mod rest_laws;
mod timeline_laws;
mod walk_laws;

pub use end_laws::{
    cut_keeps_prefix, ends_go_on, ends_join, fault_has_the_greatest_end, fault_refutes_prefix,
    more_keeps_faults, one_fault, prefix_past_an_end, whole_end_past_an_end,
};
pub use past_any::walk_past_any;
pub use pieces::{WalkFault, walk};
pub use rest::{REST_LIMIT, Rest, RestStep, rest_on_page};
pub use rest_laws::{image_has_a_rest, one_rest_answer};
pub use timeline_laws::{alike_ends, alike_image, alike_prefix, alike_walks};
pub use walk_laws::{begins_at_an_end, goes_on_from_its_end};
