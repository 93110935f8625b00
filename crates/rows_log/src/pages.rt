//! Headers of pages.
use crate::values::{size, timeline};
use repl_lsn::Lsn;
use repl_page::{Ident, PageHeader, check_header, header_size, write_header};
use rows_table::{Answer, Call, Miss, debug, number, said, short};
use std::alloc::Global;

pub fn answer(alloc: Global, call: &Call) -> Answer {
    if let Some([addr, bytes]) = call.words("header_size") {
        return debug(alloc, &header_size(Lsn(number(addr)?), size(bytes)?));
    }
    if let Some(words) = call.words("header") {
        return written(alloc, &header(words)?);
    }
    if let Some([bytes, words @ ..]) = call.words("check") {
        return checked(alloc, &header(words)?, bytes);
    }
    Err(Miss::Call)
}

/// What a log has on each of its first pages: the system, the magic number and the size of segments.
pub fn ident(sysid: &[u8], magic: &[u8], bytes: &[u8]) -> Result<Ident, Miss> {
    Ok(Ident {
        sysid: number(sysid)?,
        magic: u16::try_from(short(magic)?).ok().ok_or(Miss::Words)?,
        size: size(bytes)?,
    })
}

/// The header of a page: the log's words, and the page's timeline, its address and what remains of a record on it.
fn header(words: &[Vec<u8>]) -> Result<PageHeader, Miss> {
    let [sysid, magic, bytes, tli, addr, rem_len] = words else {
        return Err(Miss::Words);
    };
    let ident = ident(sysid, magic, bytes)?;
    Ok(ident.header(timeline(tli)?, Lsn(number(addr)?), short(rem_len)?))
}

/// The header as it is written into a room of bytes that are set.
fn written(alloc: Global, header: &PageHeader) -> Answer {
    if header.long.is_some() {
        let mut room = [0xff; 40];
        write_header(header, &mut room);
        Ok(room.to_vec(alloc)?)
    } else {
        let mut room = [0xff; 24];
        write_header(header, &mut room);
        Ok(room.to_vec(alloc)?)
    }
}

/// Whether these bytes begin with the header.
fn checked(alloc: Global, header: &PageHeader, bytes: &[u8]) -> Answer {
    let length = if header.long.is_some() { 40 } else { 24 };
    if bytes.len() < length {
        return said(alloc, "refused");
    }
    debug(alloc, &check_header(header, bytes))
}
