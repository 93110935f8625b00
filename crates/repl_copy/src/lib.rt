//! Payloads of CopyData in streaming replication (PostgreSQL 17 manual, section "Streaming Replication
//! Protocol"), as values and as the bytes that spell them.
//!
//! A server sends pieces of its log and keepalives (`Stream`), and a standby answers with its positions and with
//! feedback (`Reply`). Each value has one spelling, which `specs/Payload.antt` gives by cases. `encode_stream`
//! and `encode_reply` append it; `decode_stream` and `decode_reply` read exactly the spellings, take no memory,
//! and say of any other payload what is wrong with it. Stands on `repl_lsn` and on the kit's `bytes`,
//! `byteorder` and `thiserror`.
//!
//! ```text
//! let sent = Stream::Keepalive { end: Lsn(0x300_0000), clock, reply: true };
//! encode_stream(&sent, &mut payload)?;
//! match decode_stream(Bytes::from_vec(payload)?)? {
//!     Stream::Keepalive { end, reply: true, .. } => answer_at(end),
//!     ..
//! }
//! ```
#![tactic(auto)]

mod decode;
mod encode;
mod fault;
mod laws;
mod payload;

pub use decode::{decode_reply, decode_stream};
pub use encode::{encode_reply, encode_stream};
pub use fault::CopyFault;
pub use laws::{one_reply, one_stream};
pub use payload::{Reply, Stream, WAL_LIMIT};
