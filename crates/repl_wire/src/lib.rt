//! Reading messages of the frontend/backend protocol (PostgreSQL 17 manual, chapter "Frontend/Backend
//! Protocol", sections "Message Flow" and "Message Formats").
//!
//! `take` reads a message from the front of a buffer: it answers the message and how many bytes it takes, or
//! that more bytes are needed, or the first fault and its place. What is read is spelled so, and what is
//! spelled so is read, whatever follows it. `FrameReader` is fed what one side sends, in pieces of any size,
//! and gives the same messages and the same fault however they are cut. Passes on the messages themselves and
//! their encoders, which are those of `repl_message`. Stands on `repl_message`, `repl_text` and on the kit's
//! `bytes` and `thiserror`.
//!
//! ```text
//! let mut reader = FrameReader::new(alloc, Side::Back)?;
//! reader.feed(piece);
//! loop {
//!     match reader.next(alloc) {
//!         Step::Message(message) => handle(message)?,
//!         Step::NeedMore => reader.feed(next_piece()?),
//!         Step::Refused(fault) => return Err(fault.into()),
//!         Step::Memory => return Err(AllocError.into()),
//!     }
//! }
//! ```
#![tactic(auto)]

mod fault;
mod fields;
mod head;
mod laws;
mod reader;
mod server_fields;
mod taking;

pub use fault::WireFault;
pub use head::{Head, judge_head};
pub use laws::{any_cuts, fields_spell, head_decides, one_after_another, one_message};
pub use reader::{FrameReader, PIECE_LIMIT, READER_ROOM, Step};
pub use repl_message::{
    Back, COPY_DATA_LIMIT, Column, Columns, EncodeFault, ErrorField, ErrorFields, Field, Fields,
    Formats, Front, LIST_LIMIT, MESSAGE_LIMIT, Message, PROTOCOL_3_0, Pair, Pairs, Phase,
    STARTUP_LEAST, STARTUP_LIMIT, Side, Startup, Text, TransactionStatus, encode_back,
    encode_copy_data, encode_front, encode_startup, length_of, one_back, one_front, one_reading,
    one_startup,
};
pub use taking::{Taken, take};
