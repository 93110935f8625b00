ghost use Rattle.std.specs.Prelude.{◌≡◌, ◌≢◌, Some, slice_get};
ghost use Rattle.repl_turn.specs.History.{entry, number};

use repl_turn::{Acted, Machine, Pass, Turn};
use std::alloc::{AllocError, Global};
use std::sync::Wait;
use std::test::*;
use std::thread::{Threads, join};
use std::{hint, thread};

// How many lines each thread adds.
const LINES: u32 = 20_000;

// How often two threads take turns.
const ROUNDS: usize = 4_000;

// How many changes those who wait see.
const CHANGES: usize = 20;

// Keeps lines, one after another. What is awaited is the bytes that stand there.
#[derive(Drop)]
struct Lines {
    bytes: Vec<u8>,
}

#[derive(Drop)]
enum Ask {
    Add(Vec<u8>),
    Tell(Global),
    // Lets other threads run so often, while no other event is made.
    Nap(u32),
}

#[derive(Drop)]
enum Answer {
    // How many bytes stand before the line.
    Added(usize),
    Told(Vec<u8>),
    Rested,
    NoMemory,
}

impl Machine for Lines {
    ghost use Rattle.std.specs.Prelude.{◌≡◌, ◌⊎◌, ℕ, true, false, List, ◌++◌, length};
    ghost use Rattle.std.proofs.Common.{sym, true≢false};
    ghost use Rattle.test_system.specs.declared.turns.Ask.TheVariants.{Add, Tell, Nap};
    ghost use Rattle.test_system.specs.declared.turns.Answer.TheVariants.{Added, Told, Rested, NoMemory};

    type Event = Ask;

    type Reply = Answer;

    ghost steps = { λ x. elim [
      | Add line ↦ λ reply y. ((reply ≡ Added (length x.bytes.items)) × (y.bytes.items ≡ x.bytes.items ++ line.items)) ⊎ ((reply ≡ NoMemory) × (y.bytes.items ≡ x.bytes.items))
      | Tell alloc ↦ λ reply y. y.bytes.items ≡ x.bytes.items
      | Nap times ↦ λ reply y. y.bytes.items ≡ x.bytes.items
    ] };

    ghost Awaited = { List ℕ };

    ghost awaited = { λ x. x.bytes.items };

    ghost quiet = { elim [ Add line ↦ false | Tell alloc ↦ true | Nap times ↦ true ] };

    fn is_quiet(event: &Ask) -> bool {
        match event {
            Ask::Add(_) => false,
            Ask::Tell(_) | Ask::Nap(_) => true,
        }
    }

    fn act(&mut self, event: Ask) -> Answer {
        match event {
            Ask::Add(line) => {
                let before = self.bytes.len();
                match self.bytes.extend_from_slice(&line) {
                    Ok(()) => Answer::Added(before),
                    Err(_) => Answer::NoMemory,
                }
            }
            Ask::Tell(alloc) => match Vec::from_slice(alloc, &self.bytes) {
                Ok(bytes) => Answer::Told(bytes),
                Err(_) => Answer::NoMemory,
            },
            Ask::Nap(times) => {
                for _ in 0..times {
                    thread::yield_now();
                }
                Answer::Rested
            }
        }
    }

    ghost stays = { λ x. elim [
      | Add line ↦ λ reply y quiet made. absurd (true≢false (sym quiet))
      | Tell alloc ↦ λ reply y quiet made. made
      | Nap times ↦ λ reply y quiet made. made
    ] };
}

// Adds lines of two of this letter. Returns the place of each, with its letter.
fn add_lines<R: Wait>(
    rt: &R,
    alloc: Global,
    turn: &Turn<Lines>,
    mut pass: Pass<Lines>,
    letter: u8,
) -> Result<Vec<(usize, u8)>, AllocError>
    requires { pass.turn ≡ turn.now }
{
    let mut places = Vec::new(alloc);
    for index in 0..LINES {
        let line = Vec::from_slice(alloc, &[letter, letter])?;
        if let Answer::Added(place) = turn.act(rt, &mut pass, Ask::Add(line)).reply {
            places.push((place, letter))?;
        }
        if index % 256 == 0 {
            turn.act(rt, &mut pass, Ask::Nap(50));
        }
    }
    Ok(places)
}

// Two threads add lines.
fn add_by_two<R: Threads + Wait + Sync>(
    rt: &R,
    alloc: Global,
    turn: &Turn<Lines>,
    pass: Pass<Lines>,
    first: u8,
    second: u8,
) -> Result<Vec<(usize, u8)>, AllocError>
    requires { pass.turn ≡ turn.now }
{
    let (one, other) = turn.split(pass);
    let (left, right) = join(
        rt,
        || -> Result<Vec<(usize, u8)>, AllocError>
            requires { one.turn ≡ turn.now }
        { add_lines(rt, alloc, turn, one, first) },
        || -> Result<Vec<(usize, u8)>, AllocError>
            requires { other.turn ≡ turn.now }
        { add_lines(rt, alloc, turn, other, second) },
    );
    let mut places = left?;
    places.extend_from_slice(&right?)?;
    Ok(places)
}

// Four threads add lines.
fn add_by_four<R: Threads + Wait + Sync>(
    rt: &R,
    alloc: Global,
    turn: &Turn<Lines>,
    pass: Pass<Lines>,
) -> Result<Vec<(usize, u8)>, AllocError>
    requires { pass.turn ≡ turn.now }
{
    let (one, other) = turn.split(pass);
    let (left, right) = join(
        rt,
        || -> Result<Vec<(usize, u8)>, AllocError>
            requires { one.turn ≡ turn.now }
        { add_by_two(rt, alloc, turn, one, b'a', b'b') },
        || -> Result<Vec<(usize, u8)>, AllocError>
            requires { other.turn ≡ turn.now }
        { add_by_two(rt, alloc, turn, other, b'c', b'd') },
    );
    let mut places = left?;
    places.extend_from_slice(&right?)?;
    Ok(places)
}

// Whether each line stands at its place, no two at one, and nothing else.
fn are_the_lines(mut bytes: Vec<u8>, places: &[(usize, u8)]) -> bool {
    for (place, letter) in places {
        let Some(byte) = bytes.get_mut(*place) else {
            return false;
        };
        if *byte != *letter {
            return false;
        }
        *byte = 0;
    }
    bytes.len() == 2 * LINES as usize * 4
}

#[test]
fn four_threads_own_their_lines(rt: HostRuntime) -> Result<(), Fail> {
    let Ok((turn, pass)) = Turn::new(
        rt.alloc(),
        Lines {
            bytes: Vec::new(rt.alloc()),
        },
    ) else {
        return Err("no memory".into());
    };
    let (pass, other) = turn.split(pass);
    let places = add_by_four(&rt, rt.alloc(), &turn, other)?;
    let Ok(lines) = turn.into_machine(pass) else {
        return Err("an event under way".into());
    };
    assert!(rt; are_the_lines(lines.bytes, &places));
    Ok(())
}

// Makes an event that owns memory.
fn ask_as<R: Wait>(
    rt: &R,
    turn: &Turn<Lines>,
    mut pass: Pass<Lines>,
    event: Ask,
) -> (Pass<Lines>, Acted<Answer>)
    requires { pass.turn ≡ turn.now }
    ensures turn { result.0.turn ≡ turn.now }
    ensures made { slice_get result.0.seen result.1.at ≡ Some (entry (number pass) event result.1.reply) }
{
    let acted = turn.act(rt, &mut pass, event);
    (pass, acted)
}

// Two threads make such an event each. Both stand in one legal history, with the replies that the threads had.
fn ask_both<R: Threads + Wait + Sync>(
    rt: &R,
    turn: &Turn<Lines>,
    pass: Pass<Lines>,
    first: Ask,
    second: Ask,
) -> (Pass<Lines>, Acted<Answer>, Acted<Answer>)
    requires { pass.turn ≡ turn.now }
    ensures turn { result.0.turn ≡ turn.now }
    ensures first { slice_get result.0.seen result.1.at ≡ Some (entry (number pass) first result.1.reply) }
    ensures second { (by : _) × (by ≢ number pass) × (slice_get result.0.seen result.2.at ≡ Some (entry by second result.2.reply)) }
{
    let (one, other) = turn.split(pass);
    let (left, right) = join(
        rt,
        || -> (Pass<Lines>, Acted<Answer>)
            requires { one.turn ≡ turn.now }
            ensures { (result.0.turn ≡ turn.entry.now) × (slice_get result.0.seen result.1.at ≡ Some (entry (number one) first result.1.reply)) }
        { ask_as(rt, turn, one, first) },
        || -> (Pass<Lines>, Acted<Answer>)
            requires { other.turn ≡ turn.now }
            ensures { (result.0.turn ≡ turn.entry.now) × (slice_get result.0.seen result.1.at ≡ Some (entry (number other) second result.1.reply)) }
        { ask_as(rt, turn, other, second) },
    );
    let (one, first) = left;
    let (other, second) = right;
    (turn.join(one, other), first, second)
}

#[test]
fn two_threads_know_both_lines(rt: HostRuntime) -> Result<(), Fail> {
    let Ok((turn, pass)) = Turn::new(
        rt.alloc(),
        Lines {
            bytes: Vec::new(rt.alloc()),
        },
    ) else {
        return Err("no memory".into());
    };
    let first = Ask::Add(Vec::from_slice(rt.alloc(), b"ab")?);
    let second = Ask::Add(Vec::from_slice(rt.alloc(), b"cd")?);
    let (mut pass, one, other) = ask_both(&rt, &turn, pass, first, second);
    assert!(rt; pass.seen() == 2 && one.at < 2 && other.at < 2 && one.at != other.at);
    let Answer::Told(bytes) = turn.act(&rt, &mut pass, Ask::Tell(rt.alloc())).reply else {
        return Err("no memory".into());
    };
    assert!(rt; bytes.as_slice() == b"abcd".as_slice() || bytes.as_slice() == b"cdab".as_slice());
    Ok(())
}

// Looks, and waits for a change, until so many bytes stand there. Returns how often it looked.
fn wait_for_bytes<R: Wait>(
    rt: &R,
    alloc: Global,
    turn: &Turn<Lines>,
    pass: &mut Pass<Lines>,
    count: usize,
) -> usize
    requires { pass.old.turn ≡ turn.now }
    ensures { pass.new.turn ≡ pass.old.turn }
{
    let mut looks: usize = 0;
    for _ in rt.forever() {
        looks = looks.saturating_add(1);
        if let Answer::Told(bytes) = turn.act(rt, pass, Ask::Tell(alloc)).reply {
            if bytes.len() >= count {
                return looks;
            }
        }
        turn.wait_for_change(rt, pass);
    }
    unreachable!()
}

// Makes many quiet events.
fn make_quiet<R: Wait>(rt: &R, turn: &Turn<Lines>, pass: &mut Pass<Lines>)
    requires { pass.old.turn ≡ turn.now }
    ensures { pass.new.turn ≡ pass.old.turn }
{
    for _ in 0..200 {
        turn.act(rt, pass, Ask::Nap(10));
    }
}

// Adds a byte now and then, with many quiet events between.
fn add_slowly<R: Wait>(
    rt: &R,
    alloc: Global,
    turn: &Turn<Lines>,
    mut pass: Pass<Lines>,
) -> Result<usize, AllocError>
    requires { pass.turn ≡ turn.now }
{
    for _ in 0..CHANGES {
        make_quiet(rt, turn, &mut pass);
        let line = Vec::from_slice(alloc, b"x")?;
        turn.act(rt, &mut pass, Ask::Add(line));
    }
    Ok(0)
}

// Two threads wait for all changes, and a third makes them. Returns how often each of the two looked.
fn wait_beside<R: Threads + Wait + Sync>(
    rt: &R,
    alloc: Global,
    turn: &Turn<Lines>,
    pass: Pass<Lines>,
) -> Result<(usize, usize), AllocError>
    requires { pass.turn ≡ turn.now }
{
    let (mut one, other) = turn.split(pass);
    let (mut other, third) = turn.split(other);
    let ((one, other), third) = join(
        rt,
        || -> (usize, usize)
            requires { (one.turn ≡ turn.now) × (other.turn ≡ turn.now) }
        {
            join(
                rt,
                || -> usize
                    requires { one.turn ≡ turn.now }
                { wait_for_bytes(rt, alloc, turn, &mut one, CHANGES) },
                || -> usize
                    requires { other.turn ≡ turn.now }
                { wait_for_bytes(rt, alloc, turn, &mut other, CHANGES) },
            )
        },
        || -> Result<usize, AllocError>
            requires { third.turn ≡ turn.now }
        { add_slowly(rt, alloc, turn, third) },
    );
    third?;
    Ok((one, other))
}

#[test]
fn only_loud_events_wake(rt: HostRuntime) -> Result<(), Fail> {
    let Ok((turn, pass)) = Turn::new(
        rt.alloc(),
        Lines {
            bytes: Vec::new(rt.alloc()),
        },
    ) else {
        return Err("no memory".into());
    };
    let (one, other) = wait_beside(&rt, rt.alloc(), &turn, pass)?;
    assert!(rt; one <= CHANGES + 1 && other <= CHANGES + 1);
    Ok(())
}

fn linger(times: usize) {
    for _ in 0..times {
        hint::spin_loop();
    }
}

// Adds a byte wherever an even number of bytes stand there, or wherever an odd one does. It is late by ever another
// while, so that the change comes before the other looks, between its look and its sleep, and while it sleeps.
fn take_turns<R: Wait>(
    rt: &R,
    alloc: Global,
    turn: &Turn<Lines>,
    mut pass: Pass<Lines>,
    first: usize,
) -> Result<(), AllocError>
    requires { pass.turn ≡ turn.now }
{
    for round in 0..ROUNDS {
        wait_for_bytes(
            rt,
            alloc,
            turn,
            &mut pass,
            (2 * round).saturating_add(first),
        );
        linger(round % 256);
        let line = Vec::from_slice(alloc, b"x")?;
        turn.act(rt, &mut pass, Ask::Add(line));
    }
    Ok(())
}

fn take_turns_by_two<R: Threads + Wait + Sync>(
    rt: &R,
    alloc: Global,
    turn: &Turn<Lines>,
    pass: Pass<Lines>,
) -> Result<(), AllocError>
    requires { pass.turn ≡ turn.now }
{
    let (one, other) = turn.split(pass);
    let (left, right) = join(
        rt,
        || -> Result<(), AllocError>
            requires { one.turn ≡ turn.now }
        { take_turns(rt, alloc, turn, one, 0) },
        || -> Result<(), AllocError>
            requires { other.turn ≡ turn.now }
        { take_turns(rt, alloc, turn, other, 1) },
    );
    left?;
    right
}

// Where a change were missed, this would not end.
#[test]
fn no_change_is_missed(rt: HostRuntime) -> Result<(), Fail> {
    let Ok((turn, pass)) = Turn::new(
        rt.alloc(),
        Lines {
            bytes: Vec::new(rt.alloc()),
        },
    ) else {
        return Err("no memory".into());
    };
    take_turns_by_two(&rt, rt.alloc(), &turn, pass)?;
    Ok(())
}
