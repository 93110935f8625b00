//! The calls on a node, as rows make them.
use crate::answers::{done, end, of_slots, read, slots, state, status, sum};
use bytes::Bytes;
use repl_disk::MemoryDisk;
use repl_lsn::{Lsn, Tli, parse_history};
use repl_node::{Node, NodeFault};
use repl_record::RecordIn;
use rows_table::{Answer, Call, Miss, debug, is, number, said, short, text};
use std::alloc::Global;

/// No more is read at once than this.
const ROOM: u64 = 131_072;

pub fn answer(alloc: Global, node: &mut Node<MemoryDisk>, call: &Call) -> Answer {
    if let Some([]) = call.words("status") {
        return status(alloc, node);
    }
    if let Some([]) = call.words("slots") {
        return slots(alloc, node.slots());
    }
    if let Some([]) = call.words("state") {
        return state(alloc, node);
    }
    of_log(alloc, node, call)
}

/// Calls by which the log becomes longer, and is flushed.
fn of_log(alloc: Global, node: &mut Node<MemoryDisk>, call: &Call) -> Answer {
    if let Some([length]) = call.words("append") {
        return append(alloc, node, &record(alloc, number(length)?)?);
    }
    if let Some([length, first, xid, info, rmid]) = call.words("append") {
        let item = record_of(alloc, number(length)?, [first, xid, info, rmid])?;
        return append(alloc, node, &item);
    }
    if let Some([count, length]) = call.words("appends") {
        return appends(alloc, node, number(count)?, number(length)?);
    }
    if let Some([tli, start, bytes]) = call.words("receive") {
        let tli = timeline(tli)?;
        let start = Lsn(number(start)?);
        return end(alloc, node.receive(alloc, tli, start, bytes));
    }
    if let Some([]) = call.words("flush") {
        return end(alloc, node.flush());
    }
    if let Some([]) = call.words("demote") {
        return done(alloc, node.demote());
    }
    of_path(alloc, node, call)
}

/// Calls that concern timelines, or how far the log is kept.
fn of_path(alloc: Global, node: &mut Node<MemoryDisk>, call: &Call) -> Answer {
    if let Some([at_least]) = call.words("promote") {
        return promote(alloc, node, short(at_least)?);
    }
    if let Some([own, bytes]) = call.words("follow") {
        return follow(alloc, node, timeline(own)?, bytes);
    }
    if let Some([tli, at, room]) = call.words("read") {
        let tli = timeline(tli)?;
        let at = Lsn(number(at)?);
        return read_log(alloc, node, tli, at, number(room)?);
    }
    if let Some([tli, at, room]) = call.words("sum") {
        let tli = timeline(tli)?;
        let at = Lsn(number(at)?);
        return sum_log(alloc, node, tli, at, number(room)?);
    }
    if let Some([keep]) = call.words("trim") {
        return end(alloc, node.trim(number(keep)?));
    }
    if let Some([tli]) = call.words("history") {
        return history(alloc, node, timeline(tli)?);
    }
    of_list(alloc, node, call)
}

fn of_list(alloc: Global, node: &mut Node<MemoryDisk>, call: &Call) -> Answer {
    if let Some([name, kind, session, restart]) = call.words("slot_create") {
        let temporary = is(text(kind)?, "temporary");
        let restart = position(restart)?;
        return of_slots(
            alloc,
            node.slot_create(alloc, name, temporary, number(session)?, restart),
        );
    }
    if let Some([name, session]) = call.words("slot_drop") {
        return of_slots(alloc, node.slot_drop(name, number(session)?));
    }
    if let Some([name, session]) = call.words("slot_acquire") {
        return of_slots(alloc, node.slot_acquire(name, number(session)?));
    }
    if let Some([session]) = call.words("slot_release") {
        node.slot_release(number(session)?);
        return said(alloc, "done");
    }
    if let Some([session]) = call.words("slot_end_session") {
        node.slot_end_session(number(session)?);
        return said(alloc, "done");
    }
    if let Some([session, at]) = call.words("slot_confirm") {
        node.slot_confirm(number(session)?, Lsn(number(at)?));
        return said(alloc, "done");
    }
    if let Some([]) = call.words("slot_save") {
        return of_slots(alloc, node.slot_save(alloc));
    }
    Err(Miss::Call)
}

/// A timeline by its number.
pub fn timeline(word: &[u8]) -> Result<Tli, Miss> {
    Tli::new(short(word)?).ok_or(Miss::Words)
}

fn position(word: &[u8]) -> Result<Option<Lsn>, Miss> {
    match text(word) {
        Ok("none") => Ok(None),
        _ => Ok(Some(Lsn(number(word)?))),
    }
}

/// A number below 256.
fn byte(word: &[u8]) -> Result<u8, Miss> {
    u8::try_from(number(word)?).ok().ok_or(Miss::Words)
}

/// So many bytes, each one more than the one before, by 256.
fn body(alloc: Global, length: u64, first: u8) -> Result<Bytes, Miss> {
    let mut body = Vec::new(alloc);
    let mut byte = first;
    for _ in 0..length {
        body.push(byte)?;
        byte = byte.wrapping_add(1);
    }
    Ok(Bytes::from_vec(body)?)
}

/// A record with a body of so many bytes, from 0 on.
fn record(alloc: Global, length: u64) -> Result<RecordIn, Miss> {
    Ok(RecordIn {
        xid: 0,
        info: 0,
        rmid: 0,
        body: body(alloc, length, 0)?,
    })
}

/// A record with a body of so many bytes from the first one on, and with these three numbers.
fn record_of(alloc: Global, length: u64, words: [&Vec<u8>; 4]) -> Result<RecordIn, Miss> {
    let [first, xid, info, rmid] = words;
    let body = body(alloc, length, byte(first)?)?;
    Ok(RecordIn {
        xid: short(xid)?,
        info: byte(info)?,
        rmid: byte(rmid)?,
        body,
    })
}

fn append(alloc: Global, node: &mut Node<MemoryDisk>, item: &RecordIn) -> Answer {
    end(alloc, node.append(alloc, item))
}

/// Appends so many such records, and flushes them.
fn appends(alloc: Global, node: &mut Node<MemoryDisk>, count: u64, length: u64) -> Answer {
    let item = record(alloc, length)?;
    for _ in 0..count {
        match node.append(alloc, &item) {
            Ok(_) => {}
            Err(fault) => return debug(alloc, &fault),
        }
    }
    match node.flush() {
        Ok(_) => said(alloc, "done"),
        Err(fault) => debug(alloc, &fault),
    }
}

/// The new timeline, and where it begins.
fn promote(alloc: Global, node: &mut Node<MemoryDisk>, at_least: u32) -> Answer {
    match node.promote(alloc, at_least) {
        Ok((tli, switch)) => Ok(format!(in alloc; "{} {switch}", tli.number())?.into_bytes()),
        Err(fault) => debug(alloc, &fault),
    }
}

fn follow(alloc: Global, node: &mut Node<MemoryDisk>, own: Tli, bytes: &[u8]) -> Answer {
    match parse_history(alloc, own, bytes) {
        Ok(child) => done(alloc, node.follow(alloc, &child)),
        Err(fault) => debug(alloc, &fault),
    }
}

fn read_log(alloc: Global, node: &mut Node<MemoryDisk>, tli: Tli, at: Lsn, room: u64) -> Answer {
    if room > ROOM {
        return Err(Miss::Words);
    }
    let mut room = vec![in alloc; 0; room as usize]?;
    read(alloc, &node.read(alloc, tli, at, &mut room))
}

/// Reads into a room of zeros, and tells how many bytes came, and the checksum of the room.
fn sum_log(alloc: Global, node: &mut Node<MemoryDisk>, tli: Tli, at: Lsn, room: u64) -> Answer {
    if room > ROOM {
        return Err(Miss::Words);
    }
    let mut room = vec![in alloc; 0; room as usize]?;
    let came = node.read(alloc, tli, at, &mut room);
    sum(alloc, &came, &room)
}

fn history(alloc: Global, node: &Node<MemoryDisk>, tli: Tli) -> Answer {
    let told: Result<Vec<u8>, NodeFault> = node.history(alloc, tli);
    match told {
        Ok(text) => Ok(text),
        Err(fault) => debug(alloc, &fault),
    }
}
