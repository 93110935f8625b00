//! Histories of timelines: what is read, refused and printed.
use crate::segments::timeline;
use repl_lsn::{
    History, Line, Lsn, Part, Parts, history_text, parse_history, parse_history_between,
};
use rows_table::{Answer, Call, Miss, debug, joined, number, said};
use std::alloc::Global;

pub fn answer(alloc: Global, call: &Call) -> Answer {
    if let Some([own, text]) = call.words("history") {
        return canonical(alloc, own, text);
    }
    if let Some([own, text]) = call.words("parts") {
        return parsed(alloc, own, text);
    }
    if let Some([own, least, most, text]) = call.words("within") {
        return within(alloc, own, least, most, text);
    }
    if let Some([bytes]) = call.words("line") {
        return line(alloc, bytes);
    }
    if let Some([own]) = call.words("first") {
        return first(alloc, own);
    }
    if let Some(words) = call.words("made") {
        return made_of(alloc, words);
    }
    if let Some(words) = call.words("text") {
        return printed(alloc, words);
    }
    Err(Miss::Call)
}

fn parsed(alloc: Global, own: &[u8], text: &[u8]) -> Answer {
    match parse_history(alloc, timeline(own)?, text) {
        Ok(history) => shown(alloc, &history),
        Err(fault) => debug(alloc, &fault),
    }
}

/// The same, of a log that goes from one position to another.
fn within(alloc: Global, own: &[u8], least: &[u8], most: &[u8], text: &[u8]) -> Answer {
    let (least, most) = (Lsn(number(least)?), Lsn(number(most)?));
    match parse_history_between(alloc, timeline(own)?, text, least, most) {
        Ok(history) => printed_parts(alloc, &history),
        Err(fault) => debug(alloc, &fault),
    }
}

/// The parents of a history, as they are printed.
fn printed_parts(alloc: Global, history: &History) -> Answer {
    let mut out = Vec::new(alloc);
    for part in history.parents().as_slice() {
        out.extend_from_slice(format!(in alloc; "{part};")?.as_bytes())?;
    }
    Ok(out)
}

fn line(alloc: Global, bytes: &Vec<u8>) -> Answer {
    match Line::new(bytes.clone()?) {
        Some(line) => Ok(line.copy(alloc)?.as_slice().to_vec(alloc)?),
        None => said(alloc, "none"),
    }
}

fn first(alloc: Global, own: &[u8]) -> Answer {
    shown(alloc, &History::first(alloc, timeline(own)?))
}

fn made_of(alloc: Global, words: &[Vec<u8>]) -> Answer {
    match made(alloc, words)? {
        Some(history) => shown(alloc, &history),
        None => said(alloc, "none"),
    }
}

fn printed(alloc: Global, words: &[Vec<u8>]) -> Answer {
    match history_text(alloc, &history(alloc, words)?) {
        Ok(text) => Ok(text),
        Err(fault) => debug(alloc, &fault),
    }
}

/// The number of the history that a text says, how many parents it has as it is read and as its canonical text is read
/// again, and that text.
fn canonical(alloc: Global, own: &[u8], text: &[u8]) -> Answer {
    let own = timeline(own)?;
    let history = match parse_history(alloc, own, text) {
        Ok(history) => history,
        Err(fault) => return debug(alloc, &fault),
    };
    let printed = match history_text(alloc, &history) {
        Ok(printed) => printed,
        Err(fault) => return debug(alloc, &fault),
    };
    again(alloc, &history, &printed)
}

/// The same, of a history and its canonical text.
fn again(alloc: Global, history: &History, printed: &[u8]) -> Answer {
    let again = match parse_history(alloc, history.own(), printed) {
        Ok(again) => again.parents().as_slice().len(),
        Err(fault) => return debug(alloc, &fault),
    };
    let (own, count) = (history.own().number(), history.parents().as_slice().len());
    let head = format!(in alloc; "{own} {count} {again}")?;
    joined(alloc, &[head.as_bytes(), printed])
}

/// The number of the history, and after it each parent's number, switch point and reason.
pub fn shown(alloc: Global, history: &History) -> Answer {
    let mut out = format!(in alloc; "{}", history.own().number())?.into_bytes();
    for part in history.parents().as_slice() {
        let head = format!(in alloc; " {} 0x{:x} ", part.tli.number(), part.switch.0)?;
        out.extend_from_slice(head.as_bytes())?;
        out.extend_from_slice(part.reason.as_slice())?;
    }
    Ok(out)
}

/// The history of these words: its number, and after it each parent's number, switch point and reason. `None` where
/// they make no history.
fn made(alloc: Global, words: &[Vec<u8>]) -> Result<Option<History>, Miss> {
    let [own, rest @ ..] = words else {
        return Err(Miss::Words);
    };
    let mut parts = Vec::new(alloc);
    for part in rest.chunks(3) {
        parts.push(parent(part)?)?;
    }
    Ok(History::new(timeline(own)?, Parts::new(parts)))
}

/// A parent's number, switch point and reason.
fn parent(words: &[Vec<u8>]) -> Result<Part, Miss> {
    let [tli, switch, reason] = words else {
        return Err(Miss::Words);
    };
    Ok(Part {
        tli: timeline(tli)?,
        switch: Lsn(number(switch)?),
        reason: Line::new(reason.clone()?).ok_or(Miss::Words)?,
    })
}

/// The same, where they have to make one.
pub fn history(alloc: Global, words: &[Vec<u8>]) -> Result<History, Miss> {
    made(alloc, words)?.ok_or(Miss::Words)
}
