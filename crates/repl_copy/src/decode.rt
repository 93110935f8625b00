ghost use Rattle.std.specs.Prelude.{◌≡◌, ◌+◌, ◌≤◌, ◌++◌, length, drop, Ok, Err, IfOk, IfErr};
ghost use Rattle.repl_copy.specs.declared.fault.CopyFault.{CopyFault};
ghost use Rattle.repl_copy.specs.declared.payload.Stream.{Stream};
ghost use Rattle.repl_copy.specs.declared.payload.Reply.{Reply};
ghost use Rattle.repl_copy.specs.Payload.{int32, int64, flag, stream_spelling, reply_spelling, IsOfKind, IsStream, IsReply, IsStreamFault, IsReplyFault};
ghost use Rattle.repl_copy.specs.Fields.{IsFlagFault};

use crate::fault::CopyFault;
use crate::payload::{FEEDBACK_LENGTH, KEEPALIVE_LENGTH, Reply, STATUS_LENGTH, Stream, WAL_HEAD};
use byteorder::{BigEndian, ByteOrder};
use bytes::Bytes;
use repl_lsn::Lsn;

/// What a server sent, from a CopyData's payload. Bytes of the log are shared with the payload and not copied,
/// also where there are more of them than a server of this project sends.
pub fn decode_stream(payload: Bytes) -> Result<Stream, CopyFault>
    // What is read is spelled so.
    ensures read { IfOk result (λ value. IsStream value × (payload ≡ stream_spelling value)) }
    // What is spelled so is read.
    ensures only { (value : Stream) → IsStream value → payload ≡ stream_spelling value → result ≡ Ok value }
    // Each fault has its cause, and is told where it has.
    ensures refused { IfErr result (λ fault. IsStreamFault payload fault) }
    ensures exact { (fault : CopyFault) → IsStreamFault payload fault → result ≡ Err fault }
{
    match payload.as_slice().first() {
        None => Err(CopyFault::Empty),
        Some(b'w') => wal(payload),
        Some(b'k') => keepalive(payload.as_slice()),
        Some(kind) => Err(CopyFault::Kind(*kind)),
    }
}

/// What a standby sent, from a CopyData's payload.
pub fn decode_reply(payload: &[u8]) -> Result<Reply, CopyFault>
    // What is read is spelled so.
    ensures read { IfOk result (λ value. IsReply value × (payload.now ≡ reply_spelling value)) }
    // What is spelled so is read.
    ensures only { (value : Reply) → IsReply value → payload.now ≡ reply_spelling value → result ≡ Ok value }
    // Each fault has its cause, and is told where it has.
    ensures refused { IfErr result (λ fault. IsReplyFault payload.now fault) }
    ensures exact { (fault : CopyFault) → IsReplyFault payload.now fault → result ≡ Err fault }
{
    match payload.first() {
        None => Err(CopyFault::Empty),
        Some(b'r') => status(payload),
        Some(b'h') => feedback(payload),
        Some(kind) => Err(CopyFault::Kind(*kind)),
    }
}

/// A piece of the log, whose bytes are those after the numbers.
fn wal(mut payload: Bytes) -> Result<Stream, CopyFault>
    requires { IsOfKind 119 payload }
    ensures read { IfOk result (λ value. IsStream value × (payload ≡ stream_spelling value)) }
    ensures refused { IfErr result (λ fault. IsStreamFault payload fault) }
{
    if payload.len() < WAL_HEAD {
        return Err(wrong_length(payload.as_slice()));
    }
    let head = payload.as_slice();
    let start = number_at(head, 1);
    let end = number_at(head, 9);
    let clock = number_at(head, 17);
    payload.advance(WAL_HEAD);
    Ok(Stream::Wal {
        start: Lsn(start),
        end: Lsn(end),
        clock,
        bytes: payload,
    })
}

fn keepalive(payload: &[u8]) -> Result<Stream, CopyFault>
    requires { IsOfKind 107 payload.now }
    ensures read { IfOk result (λ value. IsStream value × (payload.now ≡ stream_spelling value)) }
    ensures refused { IfErr result (λ fault. IsStreamFault payload.now fault) }
{
    if payload.len() != KEEPALIVE_LENGTH {
        return Err(wrong_length(payload));
    }
    let end = number_at(payload, 1);
    let clock = number_at(payload, 9);
    let reply = flag_at(payload, 17)?;
    Ok(Stream::Keepalive {
        end: Lsn(end),
        clock,
        reply,
    })
}

fn status(payload: &[u8]) -> Result<Reply, CopyFault>
    requires { IsOfKind 114 payload.now }
    ensures read { IfOk result (λ value. IsReply value × (payload.now ≡ reply_spelling value)) }
    ensures refused { IfErr result (λ fault. IsReplyFault payload.now fault) }
{
    if payload.len() != STATUS_LENGTH {
        return Err(wrong_length(payload));
    }
    let written = number_at(payload, 1);
    let flushed = number_at(payload, 9);
    let applied = number_at(payload, 17);
    let clock = number_at(payload, 25);
    let reply = flag_at(payload, 33)?;
    Ok(Reply::Status {
        written: Lsn(written),
        flushed: Lsn(flushed),
        applied: Lsn(applied),
        clock,
        reply,
    })
}

fn feedback(payload: &[u8]) -> Result<Reply, CopyFault>
    requires { IsOfKind 104 payload.now }
    ensures read { IfOk result (λ value. IsReply value × (payload.now ≡ reply_spelling value)) }
    ensures refused { IfErr result (λ fault. IsReplyFault payload.now fault) }
{
    if payload.len() != FEEDBACK_LENGTH {
        return Err(wrong_length(payload));
    }
    let clock = number_at(payload, 1);
    let xmin = short_at(payload, 9);
    let epoch = short_at(payload, 13);
    let catalog_xmin = short_at(payload, 17);
    let catalog_epoch = short_at(payload, 21);
    Ok(Reply::Feedback {
        clock,
        xmin,
        epoch,
        catalog_xmin,
        catalog_epoch,
    })
}

fn wrong_length(payload: &[u8]) -> CopyFault
    ensures { result ≡ CopyFault.Length (length payload.now) }
{
    CopyFault::Length {
        have: payload.len() as u64,
    }
}

/// The number of eight bytes at this place.
fn number_at(payload: &[u8], place: usize) -> u64
    requires { place + 8 ≤ length payload.now }
    ensures { drop place payload.now ≡ int64 result ++ drop (place + 8) payload.now }
{
    BigEndian::read_u64(&payload[place..])
}

/// The number of four bytes at this place.
fn short_at(payload: &[u8], place: usize) -> u32
    requires { place + 4 ≤ length payload.now }
    ensures { drop place payload.now ≡ int32 result ++ drop (place + 4) payload.now }
{
    BigEndian::read_u32(&payload[place..])
}

/// Whether a reply is asked for, from the last byte, which is at this place.
fn flag_at(payload: &[u8], place: usize) -> Result<bool, CopyFault>
    requires { length payload.now ≡ place + 1 }
    ensures read { IfOk result (λ asks. drop place payload.now ≡ flag asks) }
    ensures refused { IfErr result (λ fault. IsFlagFault payload.now fault) }
{
    match payload[place] {
        0 => Ok(false),
        1 => Ok(true),
        said => Err(CopyFault::Flag(said)),
    }
}
