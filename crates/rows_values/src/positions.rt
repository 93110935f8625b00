//! Positions and timelines.
use repl_lsn::{Lsn, Tli};
use rows_table::{Answer, Call, Miss, number, said, short};
use std::alloc::Global;

pub fn answer(alloc: Global, call: &Call) -> Answer {
    if let Some([text]) = call.words("lsn") {
        return parsed(alloc, text);
    }
    if let Some([at]) = call.words("lsn_text") {
        return printed(alloc, at);
    }
    if let Some([tli]) = call.words("timeline") {
        return timeline(alloc, tli);
    }
    Err(Miss::Call)
}

fn parsed(alloc: Global, text: &[u8]) -> Answer {
    match Lsn::parse(text) {
        Ok(at) => Ok(format!(in alloc; "0x{:x}", at.0)?.into_bytes()),
        Err(fault) => Ok(format!(in alloc; "place {}", fault.place)?.into_bytes()),
    }
}

fn printed(alloc: Global, at: &[u8]) -> Answer {
    Ok(Lsn(number(at)?).text(alloc)?.into_bytes())
}

fn timeline(alloc: Global, tli: &[u8]) -> Answer {
    match Tli::new(short(tli)?) {
        Some(tli) => Ok(format!(in alloc; "{tli:?} {}", tli.number())?.into_bytes()),
        None => said(alloc, "none"),
    }
}
