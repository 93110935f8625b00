//! Headers of the pages of the write-ahead log: 24 bytes at the start of each page of 8,192 bytes, and 40 on the first
//! page of a segment.
//!
//! `write_header` writes the one spelling of a header, and `check_header` judges bytes against the header that is
//! expected there, field by field in the order in which they stand. Two bits of the header's flags are judged and its
//! four bytes of padding are not. `Ident::header` is the header of a page of a log with this identity. Where headers
//! stand is said in `specs/Page.antt`, how they are spelled, what agrees with them and what does not in
//! `specs/Header.antt`. The layout is this project's own, after PostgreSQL's. Stands on `repl_lsn` and on the kit's
//! `byteorder` and `thiserror`.
//!
//! ```text
//! let ident = Ident { sysid: 7, magic: 0xd116, size };
//! let due = ident.header(Tli(1), Lsn(0x100_2000), 84); // the page begins with 84 bytes of an earlier one's record
//! check_header(&due, &page)?;
//! ```
#![tactic(auto)]

mod check;
mod fault;
mod header;
mod ident;
mod laws;

pub use check::check_header;
pub use fault::PageFault;
pub use header::{HEADER_LIMIT, LongPart, PAGE_SIZE, PageHeader, header_size, write_header};
pub use ident::Ident;
pub use laws::{one_header, one_page_fault, written_agrees};
