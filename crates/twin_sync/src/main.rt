//! `twin_sync`: `SyncState` against a plain machine, over 2,000 random histories of 40 events.
//!
//! After each event the plain machine makes the whole history again from nothing, and its reply, with the certificate of
//! a wait that was released and with the number of sessions that stream, is compared with that of `SyncState`.
//! Of the line that is printed at the end, 2,000 histories and 80,000 events follow from what is asked for. How many
//! certificates were compared, and how many sessions they name, is known from a run alone: it may stand in `stdout` since
//! both machines agree on it. A history in which they differ is told by its seed and the number of the first such event,
//! counted from 1.
#![tactic(auto)]

mod events;
mod lists;
mod met;
mod plain;
mod proved;
mod replies;

use events::Numbers;
use lists::standby_lists;
use plain::replay;
use proved::call;
use repl_names::StandbyList;
use repl_sync::SyncState;
use replies::Reply;
use std::alloc::{AllocError, Global};
use std::io;

/// How many histories are made, with the seeds from 1 on.
const HISTORIES: u64 = 2_000;

/// How many events a history has.
const EVENTS: u64 = 40;

/// What came of a history.
#[derive(Drop)]
struct Outcome {
    /// How many events were compared, and agree.
    events: u64,
    /// How many of them were answered with a certificate.
    certificates: u64,
    /// How many sessions these name.
    named: usize,
}

fn main(rt: HostRuntime) -> io::Result<()> {
    let Ok(lists) = standby_lists(rt.alloc()) else {
        return println!(rt; "the lists are not read");
    };
    let mut agreed: u64 = 0;
    let mut events: u64 = 0;
    let mut certificates: u64 = 0;
    let mut named: usize = 0;
    for seed in 1..=HISTORIES {
        let outcome = try_history(rt.alloc(), &lists, seed)?;
        events = events.wrapping_add(outcome.events);
        certificates = certificates.wrapping_add(outcome.certificates);
        named = named.wrapping_add(outcome.named);
        if outcome.events == EVENTS {
            agreed = agreed.wrapping_add(1);
        } else {
            println!(rt;
                "seed {seed}: event {} differs",
                outcome.events.wrapping_add(1)
            )?;
        }
    }
    println!(rt;
        "{agreed} histories agree: {events} events, {certificates} certificates, which name {named} sessions"
    )
}

/// Makes the history of this seed, up to the first event at which the machines differ.
fn try_history(alloc: Global, lists: &[StandbyList], seed: u64) -> Result<Outcome, AllocError> {
    let mut numbers = Numbers::new(seed);
    let mut state = SyncState::new(alloc);
    let mut history = Vec::new(alloc);
    let mut outcome = Outcome {
        events: 0,
        certificates: 0,
        named: 0,
    };
    for _ in 0..EVENTS {
        let event = numbers.event();
        history.push(event)?;
        let reply = call(alloc, &mut state, lists, event)?;
        let (wanted, streaming) = replay(alloc, &history)?;
        if reply != wanted || state.streaming_sessions() != streaming {
            break;
        }
        outcome.events = outcome.events.wrapping_add(1);
        if let Reply::Released(told) = reply {
            outcome.certificates = outcome.certificates.wrapping_add(1);
            outcome.named = outcome.named.wrapping_add(told.counted.len());
        }
    }
    Ok(outcome)
}
