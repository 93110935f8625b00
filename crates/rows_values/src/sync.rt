//! Histories of sessions, tickets and reports.
use crate::lists::list;
use repl_lsn::Lsn;
use repl_names::{Mode, print_names};
use repl_sync::{Certificate, Look, SyncFault, SyncState};
use repl_text::is_text;
use rows_table::{Answer, Call, Miss, debug, number, pieces, said};
use std::alloc::Global;

/// A history from the state without sessions: the reply to each event.
pub fn answer(alloc: Global, call: &Call) -> Answer {
    let Some(events) = call.words("history") else {
        return Err(Miss::Call);
    };
    let mut state = SyncState::new(alloc);
    let mut replies = Vec::new(alloc);
    for event in events {
        if !replies.is_empty() {
            replies.push(b' ')?;
        }
        replies.extend_from_slice(&reply(alloc, &mut state, event)?)?;
    }
    Ok(replies)
}

/// The reply to one event.
fn reply(alloc: Global, state: &mut SyncState, event: &[u8]) -> Answer {
    let words = pieces(alloc, event, b':')?;
    let [name, words @ ..] = words.as_slice() else {
        return Err(Miss::Words);
    };
    if let Some(answer) = of_session(alloc, state, name, words)? {
        return Ok(answer);
    }
    if let Some(answer) = of_ticket(alloc, state, name, words)? {
        return Ok(answer);
    }
    Err(Miss::Words)
}

/// The reply to an event on sessions or on the list.
fn of_session(
    alloc: Global,
    state: &mut SyncState,
    name: &[u8],
    words: &[Vec<u8>],
) -> Result<Option<Vec<u8>>, Miss> {
    let answer = match words {
        [] if name == b"new_timeline".as_slice() => {
            state.new_timeline();
            said(alloc, "done")?
        }
        [] if name == b"streams".as_slice() => debug(alloc, &state.streaming_sessions())?,
        [text] if name == b"names".as_slice() => {
            state.set_names(alloc, &list(alloc, text)?)?;
            said(alloc, "done")?
        }
        [session] if name == b"streaming".as_slice() => {
            ended(alloc, state.streaming(number(session)?))?
        }
        [session] if name == b"stop".as_slice() => {
            ended(alloc, state.stop_streaming(number(session)?))?
        }
        [session] if name == b"disconnect".as_slice() => {
            ended(alloc, state.disconnect(number(session)?))?
        }
        [session, text] if name == b"connect".as_slice() => {
            connected(alloc, state, number(session)?, text)?
        }
        [session, written, flushed, applied] if name == b"report".as_slice() => {
            let (written, flushed) = (Lsn(number(written)?), Lsn(number(flushed)?));
            let applied = Lsn(number(applied)?);
            ended(
                alloc,
                state.report(number(session)?, written, flushed, applied),
            )?
        }
        _ => return Ok(None),
    };
    Ok(Some(answer))
}

fn connected(alloc: Global, state: &mut SyncState, session: u64, name: &[u8]) -> Answer {
    if !is_text(name) {
        return Err(Miss::Words);
    }
    ended(alloc, state.connect(alloc, session, name))
}

/// The reply to an event on tickets.
fn of_ticket(
    alloc: Global,
    state: &mut SyncState,
    name: &[u8],
    words: &[Vec<u8>],
) -> Result<Option<Vec<u8>>, Miss> {
    let answer = match words {
        [] if name == b"prepare".as_slice() => prepared(alloc, state.prepare(alloc))?,
        [] if name == b"cancel_all".as_slice() => {
            state.cancel_all();
            said(alloc, "done")?
        }
        [ticket] if name == b"look".as_slice() => looked(alloc, state.look(number(ticket)?))?,
        [ticket] if name == b"cancel".as_slice() => { ended(alloc, state.cancel(number(ticket)?))? }
        [ticket] if name == b"wait_cancelled".as_slice() => {
            ended(alloc, state.wait_cancelled(number(ticket)?))?
        }
        [ticket, end, mode] if name == b"wait".as_slice() => {
            let (ticket, end) = (number(ticket)?, Lsn(number(end)?));
            ended(alloc, state.wait(ticket, end, mode_of(mode)?))?
        }
        _ => return Ok(None),
    };
    Ok(Some(answer))
}

fn mode_of(word: &[u8]) -> Result<Mode, Miss> {
    if word == b"write".as_slice() {
        return Ok(Mode::Write);
    }
    if word == b"flush".as_slice() {
        return Ok(Mode::Flush);
    }
    if word == b"apply".as_slice() {
        return Ok(Mode::Apply);
    }
    Err(Miss::Words)
}

fn ended(alloc: Global, outcome: Result<(), SyncFault>) -> Answer {
    match outcome {
        Ok(()) => said(alloc, "done"),
        Err(SyncFault::Memory) => Err(Miss::Memory),
        Err(fault) => debug(alloc, &fault),
    }
}

fn prepared(alloc: Global, outcome: Result<u64, SyncFault>) -> Answer {
    match outcome {
        Ok(ticket) => debug(alloc, &ticket),
        Err(SyncFault::Memory) => Err(Miss::Memory),
        Err(fault) => debug(alloc, &fault),
    }
}

fn looked(alloc: Global, look: Look) -> Answer {
    match look {
        Look::NotYet => said(alloc, "NotYet"),
        Look::Cancelled => said(alloc, "Cancelled"),
        Look::Unknown => said(alloc, "Unknown"),
        Look::Released(certificate) => told(alloc, &certificate),
    }
}

/// A certificate: its mode, its end, the list, and each session with its name and position.
fn told(alloc: Global, certificate: &Certificate) -> Answer {
    let mode = debug(alloc, &certificate.mode)?;
    let mut text = Vec::new(alloc);
    text.extend_from_slice(&mode)?;
    text.push(b' ')?;
    text.extend_from_slice(certificate.end.text(alloc)?.as_bytes())?;
    text.push(b' ')?;
    text.extend_from_slice(&print_names(alloc, &certificate.list)?)?;
    for counted in certificate.counted.as_slice() {
        text.push(b' ')?;
        text.extend_from_slice(&debug(alloc, &counted.session)?)?;
        text.push(b' ')?;
        text.extend_from_slice(counted.name.as_slice())?;
        text.push(b' ')?;
        text.extend_from_slice(counted.position.text(alloc)?.as_bytes())?;
    }
    Ok(text)
}
