//! The control file of a store.
use crate::values::{size, timeline};
use repl_control::{Control, Role, read_control, write_control};
use repl_lsn::Lsn;
use rows_table::{Answer, Call, Miss, debug, number, short};
use std::alloc::Global;

pub fn answer(alloc: Global, call: &Call) -> Answer {
    if let Some([name, sysid, magic, bytes]) = call.words("fresh") {
        let control = Control::fresh(role(name)?, number(sysid)?, half(magic)?, size(bytes)?);
        return Ok(write_control(&control).to_vec(alloc)?);
    }
    if let Some(words) = call.words("write") {
        return Ok(write_control(&control(words)?).to_vec(alloc)?);
    }
    if let Some([bytes, text]) = call.words("read") {
        return debug(alloc, &read_control(text, size(bytes)?));
    }
    if let Some([bytes, words @ ..]) = call.words("fit") {
        return debug(alloc, &control(words)?.is_fit(size(bytes)?));
    }
    Err(Miss::Call)
}

/// The control of these words: its role, system, timeline and magic number, and its four positions.
fn control(words: &[Vec<u8>]) -> Result<Control, Miss> {
    let [name, sysid, tli, magic, flushed, whole, floor, prev] = words else {
        return Err(Miss::Words);
    };
    Ok(Control {
        role: role(name)?,
        sysid: number(sysid)?,
        tli: timeline(tli)?,
        magic: half(magic)?,
        flushed: Lsn(number(flushed)?),
        whole: Lsn(number(whole)?),
        floor: Lsn(number(floor)?),
        prev: Lsn(number(prev)?),
    })
}

fn role(word: &[u8]) -> Result<Role, Miss> {
    if word == b"primary".as_slice() {
        Ok(Role::Primary)
    } else if word == b"standby".as_slice() {
        Ok(Role::Standby)
    } else {
        Err(Miss::Words)
    }
}

/// A number below 2^16.
fn half(word: &[u8]) -> Result<u16, Miss> {
    u16::try_from(short(word)?).ok().ok_or(Miss::Words)
}
