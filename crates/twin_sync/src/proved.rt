//! The machine that is tried: each event is one call of `SyncState`. What no history asks for, as a list beyond the
//! table, is answered as want of memory, which the plain machine never replies.
use crate::events::Event;
use crate::lists::{letter, place_of};
use crate::replies::{Reply, Seen, Told};
use repl_lsn::Lsn;
use repl_names::StandbyList;
use repl_sync::{Certificate, Look, SyncFault, SyncState};
use repl_text::is_text;
use std::alloc::{AllocError, Global};

/// Makes the call, and answers what it replied. `lists` is the table of lists.
pub fn call(
    alloc: Global,
    state: &mut SyncState,
    lists: &[StandbyList],
    event: Event,
) -> Result<Reply, AllocError> {
    let outcome = match event {
        Event::Connect(session, name) => connect(alloc, state, session, name),
        Event::Streaming(session) => state.streaming(session),
        Event::StopStreaming(session) => state.stop_streaming(session),
        Event::Disconnect(session) => state.disconnect(session),
        Event::Report(session, written, flushed, applied) => {
            state.report(session, Lsn(written), Lsn(flushed), Lsn(applied))
        }
        Event::SetNames(place) => set_names(alloc, state, lists, place),
        _ => return call_on_tickets(alloc, state, event),
    };
    Ok(ended(outcome))
}

/// The same of the calls on tickets and on all sessions.
fn call_on_tickets(
    alloc: Global,
    state: &mut SyncState,
    event: Event,
) -> Result<Reply, AllocError> {
    let outcome = match event {
        Event::Prepare => return Ok(prepared(state.prepare(alloc))),
        Event::Look(ticket) => return looked(alloc, state.look(ticket)),
        Event::Wait(ticket, end, mode) => state.wait(ticket, Lsn(end), mode),
        Event::WaitCancelled(ticket) => state.wait_cancelled(ticket),
        Event::Cancel(ticket) => state.cancel(ticket),
        Event::CancelAll => {
            state.cancel_all();
            Ok(())
        }
        Event::NewTimeline => {
            state.new_timeline();
            Ok(())
        }
        _ => Err(SyncFault::Memory),
    };
    Ok(ended(outcome))
}

/// Connects a session with a name of one letter.
fn connect(alloc: Global, state: &mut SyncState, session: u64, name: u8) -> Result<(), SyncFault> {
    let name = [name];
    if !is_text(&name) {
        return Err(SyncFault::Memory);
    }
    state.connect(alloc, session, &name)
}

/// Puts the list at this place of the table in force.
fn set_names(
    alloc: Global,
    state: &mut SyncState,
    lists: &[StandbyList],
    place: usize,
) -> Result<(), SyncFault> {
    let Some(list) = lists.get(place) else {
        return Err(SyncFault::Memory);
    };
    state.set_names(alloc, list)?;
    Ok(())
}

fn ended(outcome: Result<(), SyncFault>) -> Reply {
    match outcome {
        Ok(()) => Reply::Done,
        Err(fault) => Reply::Refused(fault),
    }
}

fn prepared(outcome: Result<u64, SyncFault>) -> Reply {
    match outcome {
        Ok(ticket) => Reply::Given(ticket),
        Err(fault) => Reply::Refused(fault),
    }
}

fn looked(alloc: Global, look: Look) -> Result<Reply, AllocError> {
    match look {
        Look::NotYet => Ok(Reply::NotYet),
        Look::Cancelled => Ok(Reply::Cancelled),
        Look::Unknown => Ok(Reply::Unknown),
        Look::Released(certificate) => Ok(Reply::Released(told(alloc, &certificate)?)),
    }
}

/// What a certificate says.
fn told(alloc: Global, certificate: &Certificate) -> Result<Told, AllocError> {
    let mut counted = Vec::new(alloc);
    for session in certificate.counted.as_slice() {
        counted.push(Seen {
            session: session.session,
            name: letter(session.name.as_slice()),
            position: session.position.0,
        })?;
    }
    Ok(Told {
        mode: certificate.mode,
        end: certificate.end.0,
        list: place_of(&certificate.list),
        counted,
    })
}
