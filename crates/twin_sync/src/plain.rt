//! The plain machine: sessions in order of connection, and all tickets that were ever given, each with its fate. Whether
//! a list is met it counts as PostgreSQL's manual says it; what becomes of sessions and tickets follows what the calls of
//! `SyncState` say of themselves. Nothing of `repl_sync` runs in it.
use crate::events::Event;
use crate::lists::plain_list;
use crate::met::{Session, counted_of, is_met};
use crate::replies::{Reply, Told};
use repl_names::Mode;
use repl_sync::SyncFault;
use std::alloc::{AllocError, Global};
use std::mem::replace;

/// What has become of a ticket.
#[derive(Drop)]
enum Fate {
    Prepared,
    /// Up to this end, by this mode.
    Waiting(u64, Mode),
    Released(Told),
    Cancelled,
    /// Answered, or handed back.
    Gone,
}

#[derive(Drop)]
struct Ticket {
    number: u64,
    fate: Fate,
}

/// What a history leads to.
#[derive(Drop)]
pub struct Plain {
    sessions: Vec<Session>,
    /// The place of the list in force in the table.
    list: usize,
    tickets: Vec<Ticket>,
    last: u64,
}

/// Makes all events from nothing: the reply to the last one, and how many sessions stream then.
pub fn replay(alloc: Global, events: &[Event]) -> Result<(Reply, usize), AllocError> {
    let mut plain = Plain {
        sessions: Vec::new(alloc),
        list: 0,
        tickets: Vec::new(alloc),
        last: 0,
    };
    let mut reply = Reply::Done;
    for event in events {
        reply = plain.act(alloc, *event)?;
    }
    Ok((reply, plain.streaming_sessions()))
}

impl Plain {
    /// Makes an event, and then releases each wait for which the list is met.
    fn act(&mut self, alloc: Global, event: Event) -> Result<Reply, AllocError> {
        let reply = self.change(alloc, event)?;
        release(alloc, &mut self.tickets, self.list, &self.sessions)?;
        Ok(reply)
    }

    /// What an event changes before waits are released, and the reply.
    fn change(&mut self, alloc: Global, event: Event) -> Result<Reply, AllocError> {
        match event {
            Event::Connect(number, name) => self.connect(number, name),
            Event::Disconnect(number) => self.disconnect(alloc, number),
            Event::Prepare => self.prepare(),
            Event::SetNames(list) => {
                self.list = list;
                Ok(Reply::Done)
            }
            Event::NewTimeline => {
                self.stop_all();
                Ok(Reply::Done)
            }
            Event::Streaming(_) | Event::StopStreaming(_) | Event::Report(_, _, _, _) => {
                Ok(self.of_session(event))
            }
            Event::CancelAll => {
                self.cancel_all();
                Ok(Reply::Done)
            }
            _ => Ok(self.of_ticket(event)),
        }
    }

    fn streaming_sessions(&self) -> usize {
        let mut count: usize = 0;
        for session in &self.sessions {
            if session.streaming {
                count = count.wrapping_add(1);
            }
        }
        count
    }

    fn is_connected(&self, number: u64) -> bool {
        for session in &self.sessions {
            if session.number == number {
                return true;
            }
        }
        false
    }

    fn connect(&mut self, number: u64, name: u8) -> Result<Reply, AllocError> {
        if self.is_connected(number) {
            return Ok(Reply::Refused(SyncFault::Known));
        }
        self.sessions.push(Session {
            number,
            name,
            streaming: false,
            written: 0,
            flushed: 0,
            applied: 0,
        })?;
        Ok(Reply::Done)
    }

    fn disconnect(&mut self, alloc: Global, number: u64) -> Result<Reply, AllocError> {
        if !self.is_connected(number) {
            return Ok(Reply::Refused(SyncFault::Unknown));
        }
        let mut others = Vec::new(alloc);
        for session in &self.sessions {
            if session.number != number {
                others.push(*session)?;
            }
        }
        self.sessions = others;
        Ok(Reply::Done)
    }

    /// A session begins to stream, stops, or reports.
    fn of_session(&mut self, event: Event) -> Reply {
        let (Event::Streaming(number)
        | Event::StopStreaming(number)
        | Event::Report(number, _, _, _)) = event
        else {
            return Reply::Unknown;
        };
        for session in self.sessions.iter_mut() {
            if session.number == number {
                session.change(event);
                return Reply::Done;
            }
        }
        Reply::Refused(SyncFault::Unknown)
    }

    fn stop_all(&mut self) {
        for session in self.sessions.iter_mut() {
            session.stop();
        }
    }

    fn prepare(&mut self) -> Result<Reply, AllocError> {
        self.last = self.last.wrapping_add(1);
        self.tickets.push(Ticket {
            number: self.last,
            fate: Fate::Prepared,
        })?;
        Ok(Reply::Given(self.last))
    }

    /// A ticket begins to wait, is looked at or cancelled.
    fn of_ticket(&mut self, event: Event) -> Reply {
        let (Event::Wait(number, _, _)
        | Event::WaitCancelled(number)
        | Event::Look(number)
        | Event::Cancel(number)) = event
        else {
            return Reply::Unknown;
        };
        for ticket in self.tickets.iter_mut() {
            if ticket.number == number {
                return of_fate(&mut ticket.fate, event);
            }
        }
        of_fate(&mut Fate::Gone, event)
    }

    fn cancel_all(&mut self) {
        for ticket in self.tickets.iter_mut() {
            if is_waiting(&ticket.fate) {
                ticket.fate = Fate::Cancelled;
            }
        }
    }
}

fn is_waiting(fate: &Fate) -> bool {
    matches!(fate, Fate::Waiting(_, _))
}

/// What an event makes of a ticket's fate, and the reply.
fn of_fate(fate: &mut Fate, event: Event) -> Reply {
    match event {
        Event::Wait(_, end, mode) => begin(fate, Fate::Waiting(end, mode)),
        Event::WaitCancelled(_) => begin(fate, Fate::Cancelled),
        Event::Look(_) => look(fate),
        _ => cancel(fate),
    }
}

/// A prepared ticket gets this fate.
fn begin(fate: &mut Fate, new: Fate) -> Reply {
    if !matches!(fate, Fate::Prepared) {
        return Reply::Refused(SyncFault::Unknown);
    }
    *fate = new;
    Reply::Done
}

/// Who is told that the wait is over hands the ticket back.
fn look(fate: &mut Fate) -> Reply {
    match replace(fate, Fate::Gone) {
        Fate::Prepared => {
            *fate = Fate::Prepared;
            Reply::Unknown
        }
        Fate::Waiting(end, mode) => {
            *fate = Fate::Waiting(end, mode);
            Reply::NotYet
        }
        Fate::Released(told) => Reply::Released(told),
        Fate::Cancelled => Reply::Cancelled,
        Fate::Gone => Reply::Unknown,
    }
}

/// A ticket that does not wait yet is handed back, and what is over stays so.
fn cancel(fate: &mut Fate) -> Reply {
    match fate {
        Fate::Prepared => {
            *fate = Fate::Gone;
            Reply::Done
        }
        Fate::Waiting(_, _) => {
            *fate = Fate::Cancelled;
            Reply::Done
        }
        Fate::Released(_) | Fate::Cancelled => Reply::Done,
        Fate::Gone => Reply::Refused(SyncFault::Unknown),
    }
}

/// Releases each wait for which the list is met.
fn release(
    alloc: Global,
    tickets: &mut [Ticket],
    place: usize,
    sessions: &[Session],
) -> Result<(), AllocError> {
    let list = plain_list(place);
    for ticket in tickets.iter_mut() {
        let Fate::Waiting(end, mode) = ticket.fate else {
            continue;
        };
        if is_met(list, sessions, mode, end) {
            ticket.fate = Fate::Released(Told {
                mode,
                end,
                list: place,
                counted: counted_of(alloc, list, sessions, mode, end)?,
            });
        }
    }
    Ok(())
}
