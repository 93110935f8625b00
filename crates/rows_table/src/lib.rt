//! Tables of tests: rows that a program reads, answers and counts.
//!
//! A line `== SUBJECT` begins a subject, `#` a comment, and `let NAME VALUE` names a value. Any other line is a row: a
//! call, its words, `=`, and the answer. A row that differs is printed with what came, and so is one that is not
//! understood. At the end of a subject the program prints how many of its rows hold.
//!
//! A word is plain text, or text between backquotes with the escapes of a Rust byte string, or `x:` and hexadecimal
//! digits, or `$` and a name. `*` and a number repeat what is before it, and `+` joins. The words of the answer are
//! joined by blanks.
//!
//! No clause says so: what a table means is seen where its rows are counted. Proved is that a table of any bytes is read
//! without a panic. Stands on the kit's `hex`.
#![tactic(auto)]

mod miss;
mod table;
mod tally;
mod values;
mod words;

pub use miss::{Answer, Miss};
pub use table::{Rows, count_rows};
pub use tally::Tally;
pub use values::{number, pieces, short, text};
pub use words::{Call, apart, debug, is, joined, said};
