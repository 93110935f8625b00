//! Events on the log and the slots, as rows say them.
use crate::sessions;
use crate::values::{choice, name, position, record, timeline};
use bytes::Bytes;
use repl_hub::HubEvent;
use repl_lsn::parse_history;
use rows_table::{Call, Miss, number, short};
use std::alloc::Global;

/// The event that a call says.
pub fn event(alloc: Global, call: &Call) -> Result<HubEvent, Miss> {
    if let Some([]) = call.words("identify") {
        return Ok(HubEvent::Identify);
    }
    if let Some([]) = call.words("status") {
        return Ok(HubEvent::Status);
    }
    if let Some([tli]) = call.words("history") {
        return Ok(HubEvent::History(timeline(tli)?));
    }
    if let Some([tli, at, most]) = call.words("read") {
        return read(tli, at, most);
    }
    if let Some([tli, at, most]) = call.words("bytes") {
        return read(tli, at, most);
    }
    if let Some([length]) = call.words("append") {
        return Ok(HubEvent::Append(record(alloc, number(length)?)?));
    }
    if let Some([]) = call.words("flush") {
        return Ok(HubEvent::Flush);
    }
    if let Some([tli, start, bytes]) = call.words("receive") {
        return receive(alloc, tli, start, bytes);
    }
    of_timelines(alloc, call)
}

fn of_timelines(alloc: Global, call: &Call) -> Result<HubEvent, Miss> {
    if let Some([own, text]) = call.words("follow") {
        return follow(alloc, own, text);
    }
    if let Some([at_least]) = call.words("promote") {
        return Ok(HubEvent::Promote(short(at_least)?));
    }
    if let Some([]) = call.words("demote") {
        return Ok(HubEvent::Demote);
    }
    if let Some([keep]) = call.words("trim") {
        return Ok(HubEvent::Trim(number(keep)?));
    }
    of_slots(alloc, call)
}

fn of_slots(alloc: Global, call: &Call) -> Result<HubEvent, Miss> {
    if let Some([session, slot, kind, place]) = call.words("slot_create") {
        return slot_create(alloc, session, slot, kind, place);
    }
    if let Some([session, slot]) = call.words("slot_drop") {
        return slot_drop(alloc, session, slot);
    }
    if let Some([slot]) = call.words("slot_read") {
        return Ok(HubEvent::SlotRead(name(alloc, slot)?));
    }
    if let Some([session, slot]) = call.words("slot_acquire") {
        return slot_acquire(alloc, session, slot);
    }
    if let Some([session]) = call.words("slot_release") {
        return Ok(HubEvent::SlotRelease(number(session)?));
    }
    if let Some([session, at]) = call.words("slot_confirm") {
        return slot_confirm(session, at);
    }
    if let Some([]) = call.words("slot_save") {
        return Ok(HubEvent::SlotSave);
    }
    sessions::event(alloc, call)
}

/// A read of up to so many bytes.
fn read(tli: &[u8], at: &[u8], most: &[u8]) -> Result<HubEvent, Miss> {
    Ok(HubEvent::Read {
        tli: timeline(tli)?,
        at: position(at)?,
        most: number(most)?,
    })
}

fn receive(alloc: Global, tli: &[u8], start: &[u8], bytes: &[u8]) -> Result<HubEvent, Miss> {
    Ok(HubEvent::Receive {
        tli: timeline(tli)?,
        start: position(start)?,
        bytes: Bytes::from_vec(bytes.to_vec(alloc)?)?,
    })
}

/// A going over to the timeline whose history is this text.
fn follow(alloc: Global, own: &[u8], text: &[u8]) -> Result<HubEvent, Miss> {
    match parse_history(alloc, timeline(own)?, text) {
        Ok(child) => Ok(HubEvent::Follow(child)),
        Err(_) => Err(Miss::Words),
    }
}

fn slot_create(
    alloc: Global,
    session: &[u8],
    slot: &[u8],
    kind: &[u8],
    place: &[u8],
) -> Result<HubEvent, Miss> {
    Ok(HubEvent::SlotCreate {
        session: number(session)?,
        name: name(alloc, slot)?,
        temporary: choice(kind, "temporary", "lasting")?,
        reserve: choice(place, "reserved", "nowhere")?,
    })
}

fn slot_drop(alloc: Global, session: &[u8], slot: &[u8]) -> Result<HubEvent, Miss> {
    Ok(HubEvent::SlotDrop {
        session: number(session)?,
        name: name(alloc, slot)?,
    })
}

fn slot_acquire(alloc: Global, session: &[u8], slot: &[u8]) -> Result<HubEvent, Miss> {
    Ok(HubEvent::SlotAcquire {
        session: number(session)?,
        name: name(alloc, slot)?,
    })
}

fn slot_confirm(session: &[u8], at: &[u8]) -> Result<HubEvent, Miss> {
    Ok(HubEvent::SlotConfirm {
        session: number(session)?,
        at: position(at)?,
    })
}
