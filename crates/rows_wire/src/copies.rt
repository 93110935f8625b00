//! Payloads of the copy stream.
use crate::messages::bytes_of;
use bytes::Bytes;
use repl_copy::{
    CopyFault, Reply, Stream, WAL_LIMIT, decode_reply, decode_stream, encode_reply, encode_stream,
};
use repl_lsn::Lsn;
use rows_table::{Answer, Call, Miss, debug, joined, number, said, short, text};
use std::alloc::Global;

pub fn answer(alloc: Global, call: &Call) -> Answer {
    if let Some([payload]) = call.words("stream") {
        return stream(alloc, payload);
    }
    if let Some([payload]) = call.words("stream_fronts") {
        return stream_fronts(alloc, payload);
    }
    if let Some([payload]) = call.words("reply") {
        return reply(alloc, payload);
    }
    if let Some([before, words @ ..]) = call.words("put_stream") {
        return put_stream(alloc, before, words);
    }
    if let Some([before, words @ ..]) = call.words("put_reply") {
        return put_reply(before, words);
    }
    Err(Miss::Call)
}

fn stream(alloc: Global, payload: &Vec<u8>) -> Answer {
    match decode_stream(bytes_of(payload)?) {
        Ok(stream) => stream_words(alloc, &stream),
        Err(fault) => debug(alloc, &fault),
    }
}

fn reply(alloc: Global, payload: &[u8]) -> Answer {
    match decode_reply(payload) {
        Ok(reply) => reply_words(alloc, reply),
        Err(fault) => debug(alloc, &fault),
    }
}

fn put_stream(alloc: Global, before: &Vec<u8>, words: &[Vec<u8>]) -> Answer {
    encoded(alloc, before.clone()?, &stream_of(words)?)
}

/// The bytes, and after them the payload.
fn encoded(alloc: Global, mut out: Vec<u8>, stream: &Stream) -> Answer {
    if let Stream::Wal { bytes, .. } = stream {
        if bytes.len() as u64 > WAL_LIMIT {
            return said(alloc, "refused");
        }
    }
    encode_stream(stream, &mut out)?;
    Ok(out)
}

fn put_reply(before: &Vec<u8>, words: &[Vec<u8>]) -> Answer {
    let reply = reply_of(words)?;
    let mut out = before.clone()?;
    encode_reply(&reply, &mut out)?;
    Ok(out)
}

/// Whether each front of a payload that is neither empty nor all of it is refused for its length.
fn stream_fronts(alloc: Global, payload: &[u8]) -> Answer {
    for have in 1..payload.len() {
        let fault = CopyFault::Length { have: have as u64 };
        let front = Bytes::copy_from_slice(alloc, &payload[..have])?;
        if decode_stream(front).err() != Some(fault) {
            return Ok(format!(in alloc; "another answer at {have}")?.into_bytes());
        }
    }
    said(alloc, "each of its length")
}

fn flag(word: &[u8]) -> Result<bool, Miss> {
    match text(word)? {
        "true" => Ok(true),
        "false" => Ok(false),
        _ => Err(Miss::Words),
    }
}

fn stream_of(words: &[Vec<u8>]) -> Result<Stream, Miss> {
    match words {
        [kind, start, end, clock, bytes] if kind.as_slice() == b"wal".as_slice() => {
            Ok(Stream::Wal {
                start: Lsn(number(start)?),
                end: Lsn(number(end)?),
                clock: number(clock)?,
                bytes: bytes_of(bytes)?,
            })
        }
        [kind, end, clock, reply] if kind.as_slice() == b"keepalive".as_slice() => {
            Ok(Stream::Keepalive {
                end: Lsn(number(end)?),
                clock: number(clock)?,
                reply: flag(reply)?,
            })
        }
        _ => Err(Miss::Words),
    }
}

fn stream_words(alloc: Global, stream: &Stream) -> Answer {
    match stream {
        Stream::Wal {
            start,
            end,
            clock,
            bytes,
        } => {
            let head = format!(in alloc; "wal 0x{:x} 0x{:x} {clock}", start.0, end.0)?;
            joined(alloc, &[head.as_bytes(), bytes.as_slice()])
        }
        Stream::Keepalive { end, clock, reply } => {
            Ok(format!(in alloc; "keepalive 0x{:x} {clock} {reply}", end.0)?.into_bytes())
        }
    }
}

fn reply_of(words: &[Vec<u8>]) -> Result<Reply, Miss> {
    let [kind, words @ ..] = words else {
        return Err(Miss::Words);
    };
    match text(kind)? {
        "status" => status(words),
        "feedback" => feedback(words),
        _ => Err(Miss::Words),
    }
}

fn status(words: &[Vec<u8>]) -> Result<Reply, Miss> {
    let [written, flushed, applied, clock, reply] = words else {
        return Err(Miss::Words);
    };
    Ok(Reply::Status {
        written: Lsn(number(written)?),
        flushed: Lsn(number(flushed)?),
        applied: Lsn(number(applied)?),
        clock: number(clock)?,
        reply: flag(reply)?,
    })
}

fn feedback(words: &[Vec<u8>]) -> Result<Reply, Miss> {
    let [clock, xmin, epoch, catalog_xmin, catalog_epoch] = words else {
        return Err(Miss::Words);
    };
    Ok(Reply::Feedback {
        clock: number(clock)?,
        xmin: short(xmin)?,
        epoch: short(epoch)?,
        catalog_xmin: short(catalog_xmin)?,
        catalog_epoch: short(catalog_epoch)?,
    })
}

fn reply_words(alloc: Global, reply: Reply) -> Answer {
    let line = match reply {
        Reply::Status {
            written,
            flushed,
            applied,
            clock,
            reply,
        } => {
            let (written, flushed, applied) = (written.0, flushed.0, applied.0);
            format!(in alloc; "status 0x{written:x} 0x{flushed:x} 0x{applied:x} {clock} {reply}")?
        }
        Reply::Feedback {
            clock,
            xmin,
            epoch,
            catalog_xmin,
            catalog_epoch,
        } => format!(in alloc; "feedback {clock} {xmin} {epoch} {catalog_xmin} {catalog_epoch}")?,
    };
    Ok(line.into_bytes())
}
