//! Programs that read their whole input, judge it, and write one text for it, or refuse it at one place.
//!
//! A `Converter` says what an input says, which text is written for that, and where another input is refused. `convert`
//! reads the input from a source, up to the converter's limit, and writes the text into a sink. Its contract is one record,
//! `Conversion` in `specs/Converting.antt`: what was read and written, the cause of each end, and that an input is answered,
//! or refused, where no object fails. `specs/Outcome.antt` has the words in which it is said. Stands on `repl_io`.
//!
//! ```text
//! match convert(alloc, &converter, &mut input, &mut out) {
//!     Converted::Done => .., // the text of what the input says was written, and nothing else
//!     Converted::Refused(place) => .., // nothing was written
//!     .. // a source or a sink failed, the source was quiet too often, or there was no memory
//! }
//! ```
#![tactic(auto)]

mod conversion;
mod converter;
mod gather;

pub use conversion::{Converted, convert};
pub use converter::{Converter, Refused};
pub use gather::GATHER_LIMIT;
