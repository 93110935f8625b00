ghost use Rattle.std.specs.Prelude.{◌≡◌, ◌∷◌, ◌++◌, OnOk, OnErr};
ghost use Rattle.repl_copy.specs.Payload.{int32, int64, flag, stream_spelling, reply_spelling, IsSent};
ghost use Rattle.repl_copy.specs.Fields.{Extends};

use crate::payload::{FEEDBACK_LENGTH, KEEPALIVE_LENGTH, Reply, STATUS_LENGTH, Stream, WAL_HEAD};
use std::alloc::AllocError;

/// Appends the one spelling of what a server sends, whose bytes of the log are at most `WAL_LIMIT`. Where there is
/// no memory for it, `out` is as it was.
pub fn encode_stream(value: &Stream, out: &mut Vec<u8>) -> Result<(), AllocError>
    requires { IsSent value.now }
    ensures ok { OnOk result (out.new.items ≡ out.old.items ++ stream_spelling value.now) }
    ensures err { OnErr result (out.new.items ≡ out.old.items) }
{
    let start = out.len();
    let written = put_stream(out, value);
    if written.is_err() {
        out.truncate(start);
    }
    written
}

/// Appends the one spelling of what a standby sends. Where there is no memory for it, `out` is as it was.
pub fn encode_reply(value: &Reply, out: &mut Vec<u8>) -> Result<(), AllocError>
    ensures ok { OnOk result (out.new.items ≡ out.old.items ++ reply_spelling value.now) }
    ensures err { OnErr result (out.new.items ≡ out.old.items) }
{
    let start = out.len();
    let written = put_reply(out, value);
    if written.is_err() {
        out.truncate(start);
    }
    written
}

/// Appends what a server sends. Where that fails, some bytes may be added.
fn put_stream(out: &mut Vec<u8>, value: &Stream) -> Result<(), AllocError>
    ensures ok { OnOk result (out.new.items ≡ out.old.items ++ stream_spelling value.now) }
    ensures err { OnErr result (Extends out.old.items out.new.items) }
{
    match value {
        Stream::Wal {
            start,
            end,
            clock,
            bytes,
        } => {
            out.reserve(WAL_HEAD + bytes.len())?;
            put_head(out, b'w', start.0)?;
            put_number(out, end.0)?;
            put_number(out, *clock)?;
            put_bytes(out, bytes.as_slice())
        }
        Stream::Keepalive { end, clock, reply } => {
            out.reserve(KEEPALIVE_LENGTH)?;
            put_head(out, b'k', end.0)?;
            put_number(out, *clock)?;
            put_flag(out, *reply)
        }
    }
}

/// Appends what a standby sends. Where that fails, some bytes may be added.
fn put_reply(out: &mut Vec<u8>, value: &Reply) -> Result<(), AllocError>
    ensures ok { OnOk result (out.new.items ≡ out.old.items ++ reply_spelling value.now) }
    ensures err { OnErr result (Extends out.old.items out.new.items) }
{
    match value {
        Reply::Status {
            written,
            flushed,
            applied,
            clock,
            reply,
        } => {
            out.reserve(STATUS_LENGTH)?;
            put_head(out, b'r', written.0)?;
            put_number(out, flushed.0)?;
            put_number(out, applied.0)?;
            put_number(out, *clock)?;
            put_flag(out, *reply)
        }
        Reply::Feedback {
            clock,
            xmin,
            epoch,
            catalog_xmin,
            catalog_epoch,
        } => {
            out.reserve(FEEDBACK_LENGTH)?;
            put_head(out, b'h', *clock)?;
            put_short(out, *xmin)?;
            put_short(out, *epoch)?;
            put_short(out, *catalog_xmin)?;
            put_short(out, *catalog_epoch)
        }
    }
}

/// Appends a kind and the number after it.
fn put_head(out: &mut Vec<u8>, kind: u8, number: u64) -> Result<(), AllocError>
    ensures ok { OnOk result (out.new.items ≡ out.old.items ++ kind ∷ int64 number) }
    ensures err { OnErr result (Extends out.old.items out.new.items) }
{
    out.push(kind)?;
    put_number(out, number)
}

/// Appends a number of eight bytes.
fn put_number(out: &mut Vec<u8>, number: u64) -> Result<(), AllocError>
    ensures ok { OnOk result (out.new.items ≡ out.old.items ++ int64 number) }
    ensures err { OnErr result (Extends out.old.items out.new.items) }
{
    out.extend_from_slice(&number.to_be_bytes())
}

/// Appends a number of four bytes.
fn put_short(out: &mut Vec<u8>, number: u32) -> Result<(), AllocError>
    ensures ok { OnOk result (out.new.items ≡ out.old.items ++ int32 number) }
    ensures err { OnErr result (Extends out.old.items out.new.items) }
{
    out.extend_from_slice(&number.to_be_bytes())
}

/// Appends whether a reply is asked for.
fn put_flag(out: &mut Vec<u8>, asks: bool) -> Result<(), AllocError>
    ensures ok { OnOk result (out.new.items ≡ out.old.items ++ flag asks) }
    ensures err { OnErr result (Extends out.old.items out.new.items) }
{
    out.push(u8::from(asks))?;
    Ok(())
}

fn put_bytes(out: &mut Vec<u8>, bytes: &[u8]) -> Result<(), AllocError>
    ensures ok { OnOk result (out.new.items ≡ out.old.items ++ bytes.now) }
    ensures err { OnErr result (Extends out.old.items out.new.items) }
{
    out.extend_from_slice(bytes)
}
