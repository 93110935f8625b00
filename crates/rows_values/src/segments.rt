//! Segments of the log, and the names of files.
use repl_lsn::{
    Lsn, PlaceFault, SegNo, SegSize, Tli, history_name, parse_partial_name, parse_seg_name,
    partial_name, seg_name, seg_of, seg_start,
};
use rows_table::{Answer, Call, Miss, debug, number, said, short};
use std::alloc::Global;

pub fn answer(alloc: Global, call: &Call) -> Answer {
    if let Some([bytes]) = call.words("segment_size") {
        return segment_size(alloc, bytes);
    }
    if let Some([bytes, at]) = call.words("segment") {
        return segment(alloc, bytes, at);
    }
    if let Some([bytes, tli, at]) = call.words("name") {
        return name(alloc, bytes, tli, at);
    }
    if let Some([bytes, text]) = call.words("named") {
        return named(alloc, bytes, text);
    }
    if let Some([bytes, tli, at]) = call.words("partial") {
        return partial(alloc, bytes, tli, at);
    }
    if let Some([bytes, text]) = call.words("named_partial") {
        return placed(alloc, parse_partial_name(text, size(bytes)?));
    }
    if let Some([tli]) = call.words("history_name") {
        return name_of_history(alloc, tli);
    }
    Err(Miss::Call)
}

fn segment_size(alloc: Global, bytes: &[u8]) -> Answer {
    match SegSize::new(short(bytes)?) {
        Some(size) => debug(alloc, &size.bytes()),
        None => said(alloc, "none"),
    }
}

/// The name of the position's segment.
fn name(alloc: Global, bytes: &[u8], tli: &[u8], at: &[u8]) -> Answer {
    let (size, at, tli) = (size(bytes)?, Lsn(number(at)?), timeline(tli)?);
    Ok(seg_name(alloc, tli, seg_of(at, size), size)?.into_bytes())
}

/// The same of a segment that is not whole.
fn partial(alloc: Global, bytes: &[u8], tli: &[u8], at: &[u8]) -> Answer {
    let (size, at, tli) = (size(bytes)?, Lsn(number(at)?), timeline(tli)?);
    Ok(partial_name(alloc, tli, seg_of(at, size), size)?.into_bytes())
}

fn name_of_history(alloc: Global, tli: &[u8]) -> Answer {
    Ok(history_name(alloc, timeline(tli)?)?.into_bytes())
}

/// A size of segments.
pub fn size(word: &[u8]) -> Result<SegSize, Miss> {
    SegSize::new(short(word)?).ok_or(Miss::Words)
}

/// A timeline.
pub fn timeline(word: &[u8]) -> Result<Tli, Miss> {
    Tli::new(short(word)?).ok_or(Miss::Words)
}

/// The number and the start of the position's segment.
fn segment(alloc: Global, bytes: &[u8], at: &[u8]) -> Answer {
    let size = size(bytes)?;
    let seg = seg_of(Lsn(number(at)?), size);
    let start = seg_start(seg, size);
    Ok(format!(in alloc; "0x{:x} 0x{:x}", seg.0, start.0)?.into_bytes())
}

/// The timeline and the number of the segment that a text names.
fn named(alloc: Global, bytes: &[u8], text: &[u8]) -> Answer {
    placed(alloc, parse_seg_name(text, size(bytes)?))
}

/// The timeline and the number of a segment, or the place where the name of one goes wrong.
fn placed(alloc: Global, named: Result<(Tli, SegNo), PlaceFault>) -> Answer {
    let line = match named {
        Ok((tli, seg)) => format!(in alloc; "{} 0x{:x}", tli.number(), seg.0)?,
        Err(fault) => format!(in alloc; "place {}", fault.place)?,
    };
    Ok(line.into_bytes())
}
