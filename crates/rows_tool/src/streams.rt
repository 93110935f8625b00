//! Links in memory, and the streams of std.
use crate::sinks::ByteSink;
use repl_io::{
    Link, LinkStep, ScriptLink, Sink, Source, StdSink, StdSource, SteadyLink, write_all,
};
use rows_table::{Answer, Call, Miss, apart, debug, joined, number, said, text};
use std::alloc::{AllocError, Global};

pub fn answer(alloc: Global, call: &Call) -> Answer {
    if let Some([input, calls @ ..]) = call.words("steady") {
        return steady(alloc, input, calls);
    }
    if let Some(words) = call.words("script") {
        return scripted(alloc, words);
    }
    if let Some([bytes]) = call.words("bytewise") {
        return bytewise(alloc, bytes);
    }
    if let Some([way, bytes]) = call.words("std_sink") {
        return std_sink(alloc, way, bytes);
    }
    if let Some([bytes, rooms @ ..]) = call.words("std_source") {
        return std_source(alloc, bytes, rooms);
    }
    Err(Miss::Call)
}

/// The answers of the calls of a steady link, and what was written.
fn steady(alloc: Global, input: &Vec<u8>, calls: &[Vec<u8>]) -> Answer {
    let mut link = SteadyLink::new(alloc, input.clone()?)?;
    let answers = run(alloc, &mut link, calls)?;
    joined(alloc, &[&answers, b"written", link.written()])
}

/// The same, of a link that follows steps.
fn scripted(alloc: Global, words: &[Vec<u8>]) -> Answer {
    let (steps, calls) = apart(words)?;
    let mut link = script(alloc, steps)?;
    let answers = run(alloc, &mut link, calls)?;
    joined(alloc, &[&answers, b"written", link.written()])
}

/// How a sink that takes a byte at a time takes these, what it has then, and after how many writes.
fn bytewise(alloc: Global, bytes: &[u8]) -> Answer {
    let mut sink = ByteSink::new(alloc, u64::MAX);
    let sent = write_whole(alloc, &mut sink, bytes)?;
    let writes = debug(alloc, &sink.writes())?;
    joined(alloc, &[&sent, sink.taken(), &writes])
}

/// Reads with these rooms from a source of std, with a blank after each.
fn std_source(alloc: Global, bytes: &[u8], rooms: &[Vec<u8>]) -> Answer {
    let mut source = StdSource::new(bytes);
    let mut all = Vec::new(alloc);
    for room in rooms {
        all.extend_from_slice(&read(alloc, &mut source, number(room)?)?)?;
        all.push(b' ')?;
    }
    Ok(all)
}

/// The link that follows these steps: `give:BYTES`, `each:BYTES` for a byte at each read and quiet before it, `quiet`
/// and `fail`. The writes with the numbers `failing:NUMBER` fail.
pub fn script(alloc: Global, words: &[Vec<u8>]) -> Result<ScriptLink, Miss> {
    let mut steps = Vec::new(alloc);
    let mut failing = Vec::new(alloc);
    for word in words {
        if let Some(bytes) = word.strip_prefix(b"give:") {
            steps.push(LinkStep::Give(bytes.to_vec(alloc)?))?;
        } else if let Some(bytes) = word.strip_prefix(b"each:") {
            push_each(alloc, &mut steps, bytes)?;
        } else if let Some(place) = word.strip_prefix(b"failing:") {
            failing.push(number(place)?)?;
        } else {
            steps.push(match text(word)? {
                "quiet" => LinkStep::Quiet,
                "fail" => LinkStep::Fail,
                _ => return Err(Miss::Words),
            })?;
        }
    }
    Ok(ScriptLink::new(alloc, steps, failing)?)
}

fn push_each(alloc: Global, steps: &mut Vec<LinkStep>, bytes: &[u8]) -> Result<(), AllocError> {
    for byte in bytes {
        steps.push(LinkStep::Quiet)?;
        steps.push(LinkStep::Give(vec![in alloc; *byte]?))?;
    }
    Ok(())
}

/// Makes the calls `read:ROOM`, `write:BYTES` and `all:BYTES`, and tells each answer.
fn run<L: Link>(alloc: Global, link: &mut L, calls: &[Vec<u8>]) -> Answer {
    let mut all = Vec::new(alloc);
    for (place, word) in calls.iter().enumerate() {
        if place > 0 {
            all.push(b' ')?;
        }
        let answer = if let Some(room) = word.strip_prefix(b"read:") {
            read(alloc, link, number(room)?)?
        } else if let Some(bytes) = word.strip_prefix(b"write:") {
            write(alloc, link, bytes)?
        } else if let Some(bytes) = word.strip_prefix(b"all:") {
            write_whole(alloc, link, bytes)?
        } else {
            return Err(Miss::Words);
        };
        all.extend_from_slice(&answer)?;
    }
    Ok(all)
}

/// A read with a room of so many bytes, and the bytes that it gives.
fn read<S: Source>(alloc: Global, source: &mut S, room: u64) -> Answer {
    if room == 0 || room > 1 << 20 {
        return Err(Miss::Words);
    }
    let mut room = vec![in alloc; 0; room as usize]?;
    let got = source.read(&mut room);
    let head = format!(in alloc; "{got:?}")?;
    match got {
        repl_io::Got::Bytes(count) => joined(alloc, &[head.as_bytes(), &room[..count]]),
        _ => Ok(head.into_bytes()),
    }
}

fn write<K: Sink>(alloc: Global, sink: &mut K, piece: &[u8]) -> Answer {
    if piece.is_empty() {
        return said(alloc, "refused");
    }
    debug(alloc, &sink.write(piece))
}

fn write_whole<K: Sink>(alloc: Global, sink: &mut K, bytes: &[u8]) -> Answer {
    debug(alloc, &write_all(sink, bytes))
}

/// A write to a vector of bytes through a sink of std, and the bytes that are in it then.
fn std_sink(alloc: Global, way: &[u8], bytes: &[u8]) -> Answer {
    let mut held = Vec::new(alloc);
    let mut sink = StdSink::new(&mut held);
    let answer = match text(way)? {
        "write" => write(alloc, &mut sink, bytes)?,
        "all" => write_whole(alloc, &mut sink, bytes)?,
        _ => return Err(Miss::Words),
    };
    joined(alloc, &[&answer, &held])
}
