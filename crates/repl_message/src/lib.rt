//! Messages of the frontend/backend protocol (PostgreSQL 17 manual, chapter "Frontend/Backend Protocol",
//! section "Message Formats"), as values and as the bytes that spell them.
//!
//! Each message has one spelling, which `specs/Message.antt` gives by cases, and no spelling is the
//! beginning of another of its side. `encode_startup`, `encode_front` and `encode_back` append a message.
//! The types hold only what can be spelled, but for the limits on a message's length. Stands on `repl_text`
//! and on the kit's `bytes` and `thiserror`.
//!
//! ```text
//! let mut out = Vec::new(alloc);
//! encode_front(&Front::Query(Text::literal(alloc, "IDENTIFY_SYSTEM")?), &mut out)?;
//! assert_eq!(rt; out.as_slice(), b"Q\0\0\0\x14IDENTIFY_SYSTEM\0".as_slice());
//! ```
#![tactic(auto)]

mod back;
mod copy_data;
mod encode_client;
mod encode_server;
mod fault;
mod framing;
mod front;
mod laws;
mod lengths;
mod message;
mod put;
mod startup;

pub use back::{
    Back, Column, Columns, ErrorField, ErrorFields, Field, Fields, Formats, LIST_LIMIT,
    TransactionStatus,
};
pub use copy_data::encode_copy_data;
pub use encode_client::{encode_front, encode_startup};
pub use encode_server::encode_back;
pub use fault::EncodeFault;
pub use front::Front;
pub use laws::{one_back, one_field, one_front, one_reading, one_startup, one_value};
pub use lengths::length_of;
pub use message::{
    COPY_DATA_LIMIT, MESSAGE_LIMIT, Message, Phase, STARTUP_LEAST, STARTUP_LIMIT, Side,
};
pub use repl_text::Text;
pub use startup::{CANCEL_REQUEST, GSS_REQUEST, PROTOCOL_3_0, Pair, Pairs, SSL_REQUEST, Startup};
