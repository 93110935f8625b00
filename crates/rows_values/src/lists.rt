//! Lists of synchronous standbys.
use repl_names::{Setting, StandbyList, parse_names, print_names, priority};
use rows_table::{Answer, Call, Miss, debug, joined, said};
use std::alloc::Global;

pub fn answer(alloc: Global, call: &Call) -> Answer {
    if let Some([]) = call.words("none") {
        return shown(alloc, &StandbyList::none(alloc));
    }
    if let Some([text]) = call.words("list") {
        return parsed(alloc, text);
    }
    if let Some([text]) = call.words("printed") {
        return printed(alloc, text);
    }
    if let Some([text, name]) = call.words("priority") {
        return priority_of(alloc, text, name);
    }
    if let Some([text]) = call.words("setting") {
        return setting(alloc, text);
    }
    Err(Miss::Call)
}

/// The word of a setting that a text says, and what of the reports counts.
fn setting(alloc: Global, text: &[u8]) -> Answer {
    match Setting::from_word(text) {
        Some(setting) => {
            let mode = format!(in alloc; "{:?}", setting.mode())?;
            joined(alloc, &[setting.word(), mode.as_bytes()])
        }
        None => said(alloc, "none"),
    }
}

fn parsed(alloc: Global, text: &[u8]) -> Answer {
    match parse_names(alloc, text) {
        Ok(list) => shown(alloc, &list),
        Err(fault) => debug(alloc, &fault),
    }
}

fn printed(alloc: Global, text: &[u8]) -> Answer {
    Ok(print_names(alloc, &list(alloc, text)?)?)
}

fn priority_of(alloc: Global, text: &[u8], name: &[u8]) -> Answer {
    debug(alloc, &priority(&list(alloc, text)?, name))
}

/// The list that a text says.
pub fn list(alloc: Global, text: &[u8]) -> Result<StandbyList, Miss> {
    parse_names(alloc, text).ok().ok_or(Miss::Words)
}

/// The method, the number, and the names, each with `|` after it.
fn shown(alloc: Global, list: &StandbyList) -> Answer {
    let (method, number) = (list.method(), list.number());
    let mut out = format!(in alloc; "{method:?} {number} ")?.into_bytes();
    for name in list.names().as_slice() {
        out.extend_from_slice(name.as_slice())?;
        out.push(b'|')?;
    }
    Ok(out)
}
