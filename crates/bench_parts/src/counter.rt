//! A counter under a turn, and under a lock.
ghost use Rattle.std.specs.Prelude.{◌≡◌, ◌+◌, ◌%◌, ◌^◌, true, refl};

use repl_turn::{Machine, Pass, Turn};
use std::sync::{Mutex, Wait};
use std::thread::{Threads, join};

/// Adds numbers up, and replies the sum so far.
#[derive(Drop)]
pub struct Counter {
    pub count: u64,
}

impl Machine for Counter {
    type Event = u64;

    type Reply = u64;

    ghost steps = { λ x event reply y. (reply ≡ (x.count + event) % 2 ^ 64) × (y.count ≡ reply) };

    ghost Awaited = { Unit {0} };

    ghost awaited = { λ _. tt };

    ghost quiet = { λ _. true };

    // Nobody waits for a change.
    fn is_quiet(_event: &u64) -> bool {
        true
    }

    fn act(&mut self, event: u64) -> u64 {
        self.count = self.count.wrapping_add(event);
        self.count
    }

    ghost stays = { λ x event reply y quiet made. refl };
}

/// Works for so many steps, and replies where that led to.
#[derive(Drop)]
pub struct Grinder {
    pub state: u64,
}

impl Machine for Grinder {
    type Event = u64;

    type Reply = u64;

    ghost steps = { λ x event reply y. y.state ≡ reply };

    ghost Awaited = { Unit {0} };

    ghost awaited = { λ _. tt };

    ghost quiet = { λ _. true };

    // Nobody waits for a change.
    fn is_quiet(_event: &u64) -> bool {
        true
    }

    fn act(&mut self, event: u64) -> u64 {
        for step in 0..event {
            self.state = self
                .state
                .wrapping_mul(6_364_136_223_846_793_005)
                .wrapping_add(step);
        }
        self.state
    }

    ghost stays = { λ x event reply y quiet made. refl };
}

/// So many times this event, by one thread, and the pass that made them.
pub fn one_by_turn<M: Machine<Event = u64, Reply = u64> + Send, R: Wait>(
    rt: &R,
    turn: &Turn<M>,
    mut pass: Pass<M>,
    event: u64,
    events: u64,
) -> Pass<M>
    requires { pass.turn ≡ turn.now }
    ensures { result.turn ≡ turn.now }
{
    for _ in 0..events {
        let _ = turn.act(rt, &mut pass, event);
    }
    pass
}

/// The same of two threads, each.
pub fn two_by_turn<M: Machine<Event = u64, Reply = u64> + Send, R: Threads + Wait + Sync>(
    rt: &R,
    turn: &Turn<M>,
    pass: Pass<M>,
    event: u64,
    events: u64,
) -> Pass<M>
    requires { pass.turn ≡ turn.now }
    ensures { result.turn ≡ turn.now }
{
    let (one, other) = turn.split(pass);
    let (one, other) = join(
        rt,
        || -> Pass<M>
            requires { one.turn ≡ turn.now }
            ensures { result.turn ≡ turn.entry.now }
        { one_by_turn(rt, turn, one, event, events) },
        || -> Pass<M>
            requires { other.turn ≡ turn.now }
            ensures { result.turn ≡ turn.entry.now }
        { one_by_turn(rt, turn, other, event, events) },
    );
    turn.join(one, other)
}

/// The same of four.
pub fn four_by_turn<M: Machine<Event = u64, Reply = u64> + Send, R: Threads + Wait + Sync>(
    rt: &R,
    turn: &Turn<M>,
    pass: Pass<M>,
    event: u64,
    events: u64,
) -> Pass<M>
    requires { pass.turn ≡ turn.now }
    ensures { result.turn ≡ turn.now }
{
    let (one, other) = turn.split(pass);
    let (one, other) = join(
        rt,
        || -> Pass<M>
            requires { one.turn ≡ turn.now }
            ensures { result.turn ≡ turn.entry.now }
        { two_by_turn(rt, turn, one, event, events) },
        || -> Pass<M>
            requires { other.turn ≡ turn.now }
            ensures { result.turn ≡ turn.entry.now }
        { two_by_turn(rt, turn, other, event, events) },
    );
    turn.join(one, other)
}

/// So many events of one thread under a lock.
pub fn one_by_mutex<R: Wait>(rt: &R, counter: &Mutex<u64>, events: u64) {
    for _ in 0..events {
        let mut count = counter.lock(rt);
        *count = count.wrapping_add(1);
    }
}

/// The same of two threads, each.
pub fn two_by_mutex<R: Threads + Wait + Sync>(rt: &R, counter: &Mutex<u64>, events: u64) {
    join(
        rt,
        || one_by_mutex(rt, counter, events),
        || one_by_mutex(rt, counter, events),
    );
}

/// The same of four.
pub fn four_by_mutex<R: Threads + Wait + Sync>(rt: &R, counter: &Mutex<u64>, events: u64) {
    join(
        rt,
        || two_by_mutex(rt, counter, events),
        || two_by_mutex(rt, counter, events),
    );
}
