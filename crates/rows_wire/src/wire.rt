//! Reading messages.
use crate::messages::{front_words, startup_words};
use crate::server_words::back_words;
use repl_wire::{Message, Phase, Taken, judge_head, take};
use rows_table::{Answer, Call, Miss, debug, joined, said, text};
use std::alloc::Global;

pub fn answer(alloc: Global, call: &Call) -> Answer {
    if let Some([phase, bytes]) = call.words("take") {
        return took(alloc, phase, bytes);
    }
    if let Some([phase, bytes]) = call.words("head") {
        return debug(alloc, &judge_head(phase_of(phase)?, bytes));
    }
    if let Some([phase, bytes]) = call.words("fronts") {
        return fronts(alloc, phase, bytes);
    }
    Err(Miss::Call)
}

fn took(alloc: Global, phase: &[u8], bytes: &[u8]) -> Answer {
    taken(alloc, &take(alloc, phase_of(phase)?, bytes))
}

fn phase_of(word: &[u8]) -> Result<Phase, Miss> {
    match text(word)? {
        "startup" => Ok(Phase::Startup),
        "front" => Ok(Phase::Front),
        "back" => Ok(Phase::Back),
        "ended" => Ok(Phase::Ended),
        _ => Err(Miss::Words),
    }
}

/// How many bytes a message takes, and the message in words; or what is wrong.
fn taken(alloc: Global, taken: &Taken) -> Answer {
    match taken {
        Taken::Whole { message, used } => {
            let used = format!(in alloc; "{used}")?;
            joined(alloc, &[used.as_bytes(), &message_words(alloc, message)?])
        }
        Taken::Short => said(alloc, "Short"),
        Taken::Wrong(fault) => debug(alloc, fault),
        Taken::Memory => Err(Miss::Memory),
    }
}

fn message_words(alloc: Global, message: &Message) -> Answer {
    match message {
        Message::Startup(message) => startup_words(alloc, message),
        Message::Front(message) => front_words(alloc, message),
        Message::Back(message) => back_words(alloc, message),
    }
}

/// Whether each front of a message that is not all of it waits for more.
fn fronts(alloc: Global, phase: &[u8], bytes: &[u8]) -> Answer {
    let phase = phase_of(phase)?;
    for end in 0..bytes.len() {
        if !matches!(take(alloc, phase, &bytes[..end]), Taken::Short) {
            return Ok(format!(in alloc; "another answer at {end}")?.into_bytes());
        }
    }
    Ok(format!(in alloc; "all {} Short", bytes.len())?.into_bytes())
}
