//! Events of sessions and of commits that wait, as rows say them.
use crate::values::{choice, list, mode, name, position, timeline, told};
use repl_hub::HubEvent;
use rows_table::{Call, Miss, number, short};
use std::alloc::Global;

/// The event that a call says.
pub fn event(alloc: Global, call: &Call) -> Result<HubEvent, Miss> {
    if let Some([standby, kind]) = call.words("connect") {
        return connect(alloc, standby, kind);
    }
    if let Some([session, tli]) = call.words("streaming") {
        return streaming(session, tli);
    }
    if let Some([session]) = call.words("stop_streaming") {
        return Ok(HubEvent::StopStreaming(number(session)?));
    }
    if let Some([session, written, flushed, applied]) = call.words("report") {
        return report(session, written, flushed, applied);
    }
    if let Some([session, xmin]) = call.words("feedback") {
        return feedback(session, xmin);
    }
    if let Some([session]) = call.words("disconnect") {
        return Ok(HubEvent::Disconnect(number(session)?));
    }
    of_waits(alloc, call)
}

fn of_waits(alloc: Global, call: &Call) -> Result<HubEvent, Miss> {
    if let Some([text]) = call.words("set_names") {
        return Ok(HubEvent::SetNames(list(alloc, text)?));
    }
    if let Some([]) = call.words("names") {
        return Ok(HubEvent::Names);
    }
    if let Some([]) = call.words("prepare") {
        return Ok(HubEvent::Prepare);
    }
    if let Some([ticket, end, setting]) = call.words("wait") {
        return wait(ticket, end, setting);
    }
    if let Some([ticket]) = call.words("look") {
        return Ok(HubEvent::Look(number(ticket)?));
    }
    if let Some([ticket]) = call.words("cancel") {
        return Ok(HubEvent::Cancel(number(ticket)?));
    }
    if let Some([]) = call.words("stop") {
        return Ok(HubEvent::Stop);
    }
    Err(Miss::Call)
}

fn connect(alloc: Global, standby: &[u8], kind: &[u8]) -> Result<HubEvent, Miss> {
    Ok(HubEvent::Connect {
        name: name(alloc, standby)?,
        replication: choice(kind, "replication", "ordinary")?,
    })
}

fn streaming(session: &[u8], tli: &[u8]) -> Result<HubEvent, Miss> {
    Ok(HubEvent::Streaming {
        session: number(session)?,
        tli: timeline(tli)?,
    })
}

/// What a standby tells whose oldest transaction has this number.
fn feedback(session: &[u8], xmin: &[u8]) -> Result<HubEvent, Miss> {
    Ok(HubEvent::Feedback {
        session: number(session)?,
        value: told(short(xmin)?),
    })
}

fn report(
    session: &[u8],
    written: &[u8],
    flushed: &[u8],
    applied: &[u8],
) -> Result<HubEvent, Miss> {
    Ok(HubEvent::Report {
        session: number(session)?,
        written: position(written)?,
        flushed: position(flushed)?,
        applied: position(applied)?,
    })
}

fn wait(ticket: &[u8], end: &[u8], setting: &[u8]) -> Result<HubEvent, Miss> {
    Ok(HubEvent::Wait {
        ticket: number(ticket)?,
        end: position(end)?,
        mode: mode(setting)?,
    })
}
