//! What the scripts in bench/ time: events on a machine that threads share, and records of the log.
//!
//! `bench_parts turn|mutex|slow THREADS EVENTS` makes so many events in each of one, two or four threads, and prints how
//! many were made. `turn` and `mutex` count under a turn and under std's `Mutex`, and an event of `slow` works for long.
//! `bench_parts crc32c BYTES ROUNDS` takes the checksum of so many bytes so many times, `walk BODY ROUNDS` walks over a log
//! of records with such bodies, and `lay_out BODY ROUNDS` lays one out; each prints a number that comes of it.
//! `bench_parts log MAGIC SYSID` walks over the log on standard input, for the scripts in scripts/peers/: it prints how
//! many records are whole, where the last one starts and ends, and what is wrong after it.
#![tactic(auto)]

mod commit;
mod counter;
mod log;
mod records;

use commit::{Ends, eight_and_standby};
use counter::{
    Counter, Grinder, four_by_mutex, four_by_turn, one_by_mutex, one_by_turn, two_by_mutex,
    two_by_turn,
};
use log::walked;
use records::{checksums, layouts, walks};
use repl_turn::{Machine, Turn};
use std::env;
use std::process::ExitCode;
use std::rt::Env;
use std::sync::{Mutex, Wait};
use std::thread::Threads;

fn main(rt: HostRuntime) -> ExitCode {
    let Some(text) = run(&rt) else {
        return ExitCode::FAILURE;
    };
    match println!(rt; "{text}") {
        Ok(()) => ExitCode::SUCCESS,
        Err(_) => ExitCode::FAILURE,
    }
}

/// Does what the words say, and answers the line to print.
fn run(rt: &(impl Env + Input + AllocGlobal + Threads + Wait + Sync)) -> Option<String> {
    let mut words = env::args(rt).ok()?.skip(1);
    let way = words.next()?;
    let first = words.next()?.as_str().parse::<u64>().ok()?;
    let second = words.next()?.as_str().parse::<u64>().ok()?;
    if way.as_str() == "log" {
        return walked(rt.alloc(), &mut rt.reader(), first, second);
    }
    if way.as_str() == "commit" {
        return committed(rt, first, second);
    }
    let number = measured(rt, way.as_str(), first, second)?;
    format!(in rt.alloc(); "{number}").ok()
}

/// How many commits eight clients made, how many events that took, and how often somebody was woken by a change.
fn committed(
    rt: &(impl AllocGlobal + Threads + Wait + Sync),
    each: u64,
    steps: u64,
) -> Option<String> {
    let (turn, pass) = Turn::new(rt.alloc(), Ends::new(steps)).ok()?;
    let tally = eight_and_standby(rt, &turn, pass, each, steps);
    let commits = each.saturating_mul(8);
    format!(in rt.alloc();
        "{commits} {} {} {}",
        tally.events,
        tally.wakes,
        tally.noise % 2
    )
    .ok()
}

/// Does what is measured, and answers a number that comes of it.
fn measured(
    rt: &(impl AllocGlobal + Threads + Wait + Sync),
    way: &str,
    first: u64,
    second: u64,
) -> Option<u64> {
    match way {
        "turn" => by_turn(rt, Counter { count: 0 }, 1, first, second),
        "slow" => by_turn(rt, Grinder { state: 0 }, 1_000_000, first, second),
        "mutex" => by_mutex(rt, first, second),
        "crc32c" => checksums(rt.alloc(), first as usize, second),
        "walk" => walks(rt.alloc(), first as usize, second),
        "lay_out" => layouts(rt.alloc(), first as usize, second),
        _ => None,
    }
}

/// How many events a turn over this machine saw, each of them this one.
fn by_turn<M: Machine<Event = u64, Reply = u64> + Send + Drop>(
    rt: &(impl AllocGlobal + Threads + Wait + Sync),
    machine: M,
    event: u64,
    threads: u64,
    events: u64,
) -> Option<u64> {
    let (turn, pass) = Turn::new(rt.alloc(), machine).ok()?;
    let pass = match threads {
        1 => one_by_turn(rt, &turn, pass, event, events),
        2 => two_by_turn(rt, &turn, pass, event, events),
        4 => four_by_turn(rt, &turn, pass, event, events),
        _ => return None,
    };
    Some(pass.seen())
}

fn by_mutex(rt: &(impl Threads + Wait + Sync), threads: u64, events: u64) -> Option<u64> {
    let counter = Mutex::new(0);
    match threads {
        1 => one_by_mutex(rt, &counter, events),
        2 => two_by_mutex(rt, &counter, events),
        4 => four_by_mutex(rt, &counter, events),
        _ => return None,
    }
    let count = *counter.lock(rt);
    Some(count)
}
