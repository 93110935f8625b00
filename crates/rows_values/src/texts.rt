//! Texts of the protocol, and counts.
use repl_effects::Count;
use repl_text::{Text, is_text};
use rows_table::{Answer, Call, Miss, debug, joined, number, said};
use std::alloc::Global;

pub fn answer(alloc: Global, call: &Call) -> Answer {
    if let Some([bytes]) = call.words("is_text") {
        return debug(alloc, &is_text(bytes));
    }
    if let Some([bytes]) = call.words("text") {
        return made(alloc, bytes);
    }
    if let Some([bytes]) = call.words("copied") {
        return copied(alloc, bytes);
    }
    if let Some([events]) = call.words("count") {
        return counted(alloc, number(events)?);
    }
    Err(Miss::Call)
}

/// The length of the text of these bytes, whether it is empty, its bytes, and its bytes again.
fn made(alloc: Global, bytes: &[u8]) -> Answer {
    let Some(text) = Text::new(bytes.to_vec(alloc)?) else {
        return said(alloc, "none");
    };
    let head = format!(in alloc; "{} {}", text.len(), text.is_empty())?;
    let first = joined(alloc, &[head.as_bytes(), text.as_slice()])?;
    joined(alloc, &[&first, &text.into_vec()])
}

/// The text of a copy of these bytes, where they are one.
fn copied(alloc: Global, bytes: &[u8]) -> Answer {
    if is_text(bytes) {
        Ok(Text::copied(alloc, bytes)?.into_vec())
    } else {
        said(alloc, "refused")
    }
}

/// What a count says after so many events.
fn counted(alloc: Global, events: u64) -> Answer {
    let mut count = Count::new();
    for _ in 0..events {
        count.raise();
    }
    debug(alloc, &count.get())
}
