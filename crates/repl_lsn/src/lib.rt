//! Positions of the write-ahead log, its segments, its timelines and their histories.
//!
//! A position (PostgreSQL's `pg_lsn`) is a byte's place in the log. Its text is two hexadecimal numbers
//! with a slash between them: `Lsn::text` prints the one canonical text of a position, and `Lsn::parse`
//! reads exactly the texts that spell one and says of any other where it goes wrong. A segment is a file's worth of
//! the log, whose name says its timeline and number: `seg_name` and `parse_seg_name`. A history is a path through
//! the log, from timeline to timeline: `parse_history` and `history_text` read and print it, `parse_history_between`
//! reads that of a log from its origin to its end, `timeline_at` and
//! `end_of` say which timeline holds which positions, and `relation_to` how two histories stand to each other.
//! Contracts see positions, segments and timelines as numbers. What spells what stands in `specs/Position.antt`,
//! `specs/Segment.antt` and `specs/History.antt`, and what is said of paths in `specs/Path.antt`. Stands on
//! `repl_text`, whose `Text` it passes on.
//!
//! ```text
//! let text = b"1\t0/1000048\tfirst failover\n2\t0/3000000\tsecond\n";
//! let history = parse_history(alloc, Tli(3), text)?;
//! history.timeline_at(Lsn(0x100_0048)) // Tli(2): a switch point is on the timeline after it
//! history.end_of(Tli(1)) // Some(Lsn(0x100_0048))
//! ```
#![tactic(auto)]

mod copies;
mod equality;
mod fault;
mod file_names;
mod history;
mod history_laws;
mod history_line;
mod history_lines;
mod laws;
mod path;
mod path_laws;
mod position;
mod relation;
mod segment;
mod segment_laws;
mod settings;
mod timeline;
mod words;

pub use fault::HistoryFault;
pub use file_names::{history_name, parse_history_name, parse_partial_name, partial_name};
pub use history::{HISTORY_LIMIT, History, Line, Part, Parts};
pub use history_laws::{one_history, one_refusal};
pub use history_lines::{history_text, parse_history, parse_history_between};
pub use laws::{one_canonical_text, one_value, text_spells};
pub use path_laws::{
    child_is_child, next_begins, one_relation, one_timeline, one_up_to, path_goes_on,
    same_before_switch, timeline_of_position,
};
pub use position::{Lsn, PlaceFault};
pub use relation::Relation;
pub use repl_text::Text;
pub use segment::{SegNo, SegSize, parse_seg_name, seg_name, seg_of, seg_start};
pub use segment_laws::{no_other_file, one_file, one_partial, one_segment};
pub use timeline::Tli;
