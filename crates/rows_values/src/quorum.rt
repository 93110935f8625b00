//! Up to where commits are released.
use crate::lists::list;
use repl_lsn::Lsn;
use repl_names::{Candidate, Method, Mode, StandbyList, are_different, put_counted, released};
use rows_table::{Answer, Call, Miss, debug, number, pieces, said, short};
use std::alloc::Global;

pub fn answer(alloc: Global, call: &Call) -> Answer {
    if let Some([text, mode, words @ ..]) = call.words("released") {
        return released_of(alloc, text, mode, words);
    }
    if let Some([text, mode, end, words @ ..]) = call.words("counted") {
        return counted_of(alloc, text, mode, end, words);
    }
    if let Some([text]) = call.words("small_lists") {
        return small_lists(alloc, text);
    }
    Err(Miss::Call)
}

fn released_of(alloc: Global, text: &[u8], mode: &[u8], words: &[Vec<u8>]) -> Answer {
    let mode = mode_of(mode)?;
    let sessions = candidates(alloc, words)?;
    released_to(alloc, &list(alloc, text)?, &sessions, mode)
}

/// The numbers of those by which the list is met at a position.
fn counted_of(alloc: Global, text: &[u8], mode: &[u8], end: &[u8], words: &[Vec<u8>]) -> Answer {
    let (mode, end) = (mode_of(mode)?, Lsn(number(end)?));
    let sessions = candidates(alloc, words)?;
    if !are_different(&sessions) {
        return said(alloc, "refused");
    }
    let mut counted = Vec::with_capacity(alloc, sessions.len())?;
    put_counted(&list(alloc, text)?, &sessions, mode, end, &mut counted);
    numbers(alloc, &counted)
}

fn numbers(alloc: Global, counted: &[Candidate]) -> Answer {
    let mut out = Vec::new(alloc);
    for session in counted {
        out.extend_from_slice(format!(in alloc; "{};", session.session)?.as_bytes())?;
    }
    Ok(out)
}

fn candidates(alloc: Global, words: &[Vec<u8>]) -> Result<Vec<Candidate>, Miss> {
    let mut sessions = Vec::new(alloc);
    for word in words {
        sessions.push(candidate(alloc, word)?)?;
    }
    Ok(sessions)
}

fn mode_of(word: &[u8]) -> Result<Mode, Miss> {
    for mode in [Mode::Write, Mode::Flush, Mode::Apply] {
        let wanted = match mode {
            Mode::Write => b"write",
            Mode::Flush => b"flush",
            Mode::Apply => b"apply",
        };
        if word == wanted.as_slice() {
            return Ok(mode);
        }
    }
    Err(Miss::Words)
}

/// A candidate: its session, its priority, and the positions that it has written, flushed and applied, or one that
/// stands for all three.
fn candidate(alloc: Global, word: &[u8]) -> Result<Candidate, Miss> {
    let pieces = pieces(alloc, word, b':')?;
    let (session, priority, written, flushed, applied) = match pieces.as_slice() {
        [session, priority, at] => (session, priority, at, at, at),
        [session, priority, written, flushed, applied] => {
            (session, priority, written, flushed, applied)
        }
        _ => return Err(Miss::Words),
    };
    Ok(Candidate {
        session: number(session)?,
        priority: short(priority)?,
        written: Lsn(number(written)?),
        flushed: Lsn(number(flushed)?),
        applied: Lsn(number(applied)?),
    })
}

fn released_to(alloc: Global, list: &StandbyList, sessions: &[Candidate], mode: Mode) -> Answer {
    if list.names().as_slice().is_empty() {
        return said(alloc, "refused");
    }
    match released(list, sessions, mode) {
        Some(at) => Ok(format!(in alloc; "0x{:x}", at.0)?.into_bytes()),
        None => said(alloc, "none"),
    }
}

/// Of four sessions with two priorities and four positions, each case against the manual's words.
fn small_lists(alloc: Global, text: &[u8]) -> Answer {
    small_cases(alloc, &list(alloc, text)?)
}

fn small_cases(alloc: Global, list: &StandbyList) -> Answer {
    if list.names().as_slice().is_empty() {
        return said(alloc, "refused");
    }
    for code in 0..4096 {
        let sessions = [
            small_candidate(4, code),
            small_candidate(3, code / 8),
            small_candidate(2, code / 64),
            small_candidate(1, code / 512),
        ];
        let mut greatest = None;
        for end in 0..=4 {
            if is_met(list.method(), list.number() as usize, &sessions, end) {
                greatest = Some(Lsn(end));
            }
        }
        if released(list, &sessions, Mode::Flush) != greatest {
            return debug(alloc, &code);
        }
    }
    said(alloc, "all 4096 agree")
}

/// A candidate of priority 1 or 2 that has flushed up to 0, 1, 2 or 3.
fn small_candidate(session: u64, code: u32) -> Candidate {
    let at = Lsn(u64::from(code % 4));
    Candidate {
        session,
        priority: 1 + code / 4 % 2,
        written: at,
        flushed: at,
        applied: at,
    }
}

/// Whether the sessions meet the list by the manual's words: by counts of those that have the position, and of those
/// that go before each.
fn is_met(method: Method, number: usize, sessions: &[Candidate], end: u64) -> bool {
    let mut candidates = 0usize;
    let mut there = 0usize;
    let mut is_first = true;
    for c in sessions {
        if !is_candidate(c) {
            continue;
        }
        candidates = candidates.wrapping_add(1);
        if c.flushed.0 >= end {
            there = there.wrapping_add(1);
        } else if before(sessions, c) < number {
            is_first = false;
        }
    }
    match method {
        Method::Any => there >= number,
        Method::First => candidates >= number && is_first,
    }
}

fn is_candidate(c: &Candidate) -> bool {
    c.priority > 0 && c.flushed.0 > 0
}

/// How many candidates go before this one.
fn before(sessions: &[Candidate], c: &Candidate) -> usize {
    let mut count = 0usize;
    for d in sessions {
        let order = (d.priority, d.session) < (c.priority, c.session);
        if is_candidate(d) && order {
            count = count.wrapping_add(1);
        }
    }
    count
}
