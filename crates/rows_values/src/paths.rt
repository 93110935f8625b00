//! Where a history's timelines are, and how two histories stand to one another.
ghost use Rattle.std.specs.Prelude.{◌≡◌};
ghost use Rattle.repl_lsn.specs.History.{last_switch};

use crate::histories::{history, shown};
use crate::segments::timeline;
use repl_lsn::{History, Lsn, Tli};
use rows_table::{Answer, Call, Miss, apart, debug, number, said};
use std::alloc::Global;

pub fn answer(alloc: Global, call: &Call) -> Answer {
    if let Some([at, words @ ..]) = call.words("timeline_at") {
        return timeline_at(alloc, at, words);
    }
    if let Some([tli, words @ ..]) = call.words("end_of") {
        return end_of(alloc, tli, words);
    }
    if let Some([tli, words @ ..]) = call.words("next_of") {
        return next_of(alloc, tli, words);
    }
    if let Some([tli, words @ ..]) = call.words("up_to") {
        return up_to(alloc, tli, words);
    }
    if let Some(words) = call.words("relation") {
        return relation(alloc, words);
    }
    if let Some([tli, switch, words @ ..]) = call.words("child") {
        return child_of(alloc, tli, switch, words);
    }
    Err(Miss::Call)
}

fn timeline_at(alloc: Global, at: &[u8], words: &[Vec<u8>]) -> Answer {
    let at = Lsn(number(at)?);
    debug(alloc, &history(alloc, words)?.timeline_at(at).number())
}

fn end_of(alloc: Global, tli: &[u8], words: &[Vec<u8>]) -> Answer {
    let tli = timeline(tli)?;
    match history(alloc, words)?.end_of(tli) {
        Some(end) => debug(alloc, &end.0),
        None => said(alloc, "none"),
    }
}

fn next_of(alloc: Global, tli: &[u8], words: &[Vec<u8>]) -> Answer {
    match history(alloc, words)?.next_of(timeline(tli)?) {
        Some(next) => debug(alloc, &next.number()),
        None => said(alloc, "none"),
    }
}

fn up_to(alloc: Global, tli: &[u8], words: &[Vec<u8>]) -> Answer {
    match history(alloc, words)?.up_to(alloc, timeline(tli)?)? {
        Some(before) => shown(alloc, &before),
        None => said(alloc, "none"),
    }
}

fn relation(alloc: Global, words: &[Vec<u8>]) -> Answer {
    let (ours, theirs) = apart(words)?;
    let path = history(alloc, ours)?;
    debug(alloc, &path.relation_to(&history(alloc, theirs)?))
}

fn child_of(alloc: Global, tli: &[u8], switch: &[u8], words: &[Vec<u8>]) -> Answer {
    let (tli, switch) = (timeline(tli)?, Lsn(number(switch)?));
    child(alloc, &history(alloc, words)?, tli, switch)
}

/// The history of a timeline that leaves the path's own at this position.
fn child(alloc: Global, path: &History, tli: Tli, switch: Lsn) -> Answer {
    if path.own() >= tli || last_switch(path) > switch {
        return said(alloc, "refused");
    }
    shown(alloc, &path.child(alloc, tli, switch)?)
}

/// The last position at which a timeline was left, 0 where none was.
fn last_switch(path: &History) -> Lsn
    ensures { result ≡ last_switch path.now.parents }
{
    match path.parents().as_slice().split_last() {
        Some((part, _)) => part.switch,
        None => Lsn(0),
    }
}
