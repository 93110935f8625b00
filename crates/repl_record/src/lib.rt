//! Records of the write-ahead log: how they are laid out over its pages, where they end, and their checksum.
//!
//! `lay_out` makes the bytes of a record's image, and `image_end` tells before that where they end. A `Walker` is given
//! the log's bytes in pieces of any size and tells where each record ends, or the first fault as soon as its bytes are
//! there; it keeps a fixed number of bytes and takes no memory. `crc32c` is the records' checksum. What an image is
//! stands in `specs/Record.antt`, how long it is in `specs/Length.antt`, what is judged and when in `specs/Judging.antt`,
//! where records end in `specs/Log.antt`, and the checksum's polynomial in `specs/Checksum.antt`. The layout is this project's own, after PostgreSQL's. Stands on `repl_page`, whose `Ident` it
//! passes on, and on the kit's `bytes`, `byteorder` and `thiserror`.
//!
//! ```text
//! let laid = lay_out(alloc, at, prev, tli, &ident, &item)?; // the log goes on with laid.bytes, up to laid.end
//! let mut walker = Walker::new(at, prev, ident);
//! walker.step(tli, &laid.bytes) // WalkStep::Whole { start: laid.start, end: laid.end, used: laid.bytes.len() }
//! ```
#![tactic(auto)]

mod answer;
mod at_once;
mod checksum;
mod checksum_tables;
mod laws;
mod laying;
mod length;
mod log_laws;
mod moves;
mod record;
mod walker;

pub use answer::{WalkReason, WalkStep};
pub use checksum::{checksum_goes_on, crc32c};
pub use laws::{cut_keeps_ends, image_is_answered, more_keeps_ends, one_answer, one_end};
pub use laying::lay_out;
pub use length::{
    image_end, image_ends_where_one_begins, longer_ends_later, one_image, one_length,
};
pub use log_laws::{ends_in_line, one_last, prefix_has_the_greatest_end};
pub use record::{BODY_LIMIT, Laid, RecordIn, RecordRefusal};
pub use repl_page::{Ident, PageFault};
pub use walker::Walker;
