//! A small model of commits: clients append and flush, and look until a standby has reported what they wait for.
ghost use Rattle.std.specs.Prelude.{◌≡◌};

use repl_turn::{Machine, Pass, Turn};
use std::sync::Wait;
use std::thread::{Threads, join};

/// The ends of a log: how much was appended, flushed, and reported by the standby.
#[derive(Drop)]
pub struct Ends {
    appended: u64,
    flushed: u64,
    reported: u64,
    /// How many steps a flush works that has something to write, in place of a disk.
    steps: u64,
    noise: u64,
}

/// Works for so many steps. Returns where that led to.
fn work(start: u64, steps: u64) -> u64 {
    let mut state = start;
    for step in 0..steps {
        state = state
            .wrapping_mul(6_364_136_223_846_793_005)
            .wrapping_add(step);
    }
    state
}

/// What a client or the standby asks. Each is answered by an end.
#[derive(Drop)]
pub enum Ask {
    Append,
    Flush,
    Report(u64),
    /// What is flushed.
    Read,
    /// What is reported.
    Look,
}

impl Ends {
    pub fn new(steps: u64) -> Ends {
        Ends {
            appended: 0,
            flushed: 0,
            reported: 0,
            steps,
            noise: 0,
        }
    }

    fn flush(&mut self) -> u64 {
        if self.flushed < self.appended {
            self.noise = work(self.noise, self.steps);
        }
        self.flushed = self.appended;
        self.flushed
    }
}

impl Machine for Ends {
    ghost use Rattle.std.specs.Prelude.{ℕ, true, false};
    ghost use Rattle.std.proofs.Common.{ap, sym, true≢false};
    ghost use Rattle.bench_parts.specs.declared.commit.Ask.TheVariants.{Append, Flush, Report, Read, Look};

    type Event = Ask;

    type Reply = u64;

    ghost steps = { λ x. elim [
      | Append ↦ λ reply y. Unit {0}
      | Flush ↦ λ reply y. Unit {0}
      | Report end ↦ λ reply y. Unit {0}
      | Read ↦ λ reply y. y ≡ x
      | Look ↦ λ reply y. y ≡ x
    ] };

    ghost Awaited = { ℕ × ℕ };

    ghost awaited = { λ x. (x.flushed, x.reported) };

    ghost quiet = { elim [ Append ↦ false | Flush ↦ false | Report end ↦ false | Read ↦ true | Look ↦ true ] };

    fn is_quiet(event: &Ask) -> bool {
        match event {
            Ask::Read | Ask::Look => true,
            Ask::Append | Ask::Flush | Ask::Report(_) => false,
        }
    }

    fn act(&mut self, event: Ask) -> u64 {
        match event {
            Ask::Append => {
                self.appended = self.appended.saturating_add(1);
                self.appended
            }
            Ask::Flush => self.flush(),
            Ask::Report(end) => {
                self.reported = end.max(self.reported);
                self.reported
            }
            Ask::Read => self.flushed,
            Ask::Look => self.reported,
        }
    }

    ghost stays = { λ x. elim [
      | Append ↦ λ reply y quiet made. absurd (true≢false (sym quiet))
      | Flush ↦ λ reply y quiet made. absurd (true≢false (sym quiet))
      | Report end ↦ λ reply y quiet made. absurd (true≢false (sym quiet))
      | Read ↦ λ reply y quiet made. ap (λ z. (z.flushed, z.reported)) made
      | Look ↦ λ reply y quiet made. ap (λ z. (z.flushed, z.reported)) made
    ] };
}

/// How many events a thread has seen, and how often it was woken by a change.
#[derive(Drop)]
pub struct Tally {
    pub events: u64,
    pub wakes: u64,
    /// Where the work of the standby led to.
    pub noise: u64,
}

impl Tally {
    /// The events that either has seen, and the wake-ups of both.
    fn and(self, other: Tally) -> Tally {
        Tally {
            events: self.events.max(other.events),
            wakes: self.wakes.saturating_add(other.wakes),
            noise: self.noise ^ other.noise,
        }
    }
}

/// Appends, flushes, and looks until the standby has it. Returns how often it was woken by a change.
fn one_commit<R: Wait>(rt: &R, turn: &Turn<Ends>, pass: &mut Pass<Ends>) -> u64
    requires { pass.old.turn ≡ turn.now }
    ensures { pass.new.turn ≡ pass.old.turn }
{
    let mut wakes: u64 = 0;
    let end = turn.act(rt, pass, Ask::Append).reply;
    turn.act(rt, pass, Ask::Flush);
    for _ in rt.forever() {
        if turn.act(rt, pass, Ask::Look).reply >= end {
            return wakes;
        }
        turn.wait_for_change(rt, pass);
        wakes = wakes.saturating_add(1);
    }
    unreachable!()
}

/// So many commits, one after another.
fn one_client<R: Wait>(rt: &R, turn: &Turn<Ends>, mut pass: Pass<Ends>, commits: u64) -> Tally
    requires { pass.turn ≡ turn.now }
{
    let mut wakes: u64 = 0;
    for _ in 0..commits {
        wakes = wakes.saturating_add(one_commit(rt, turn, &mut pass));
    }
    Tally {
        events: pass.seen(),
        wakes,
        noise: 0,
    }
}

/// Reports what is flushed, until that is this much. Before each report it works for so many steps, in place of a
/// network and a disk of its own.
fn standby<R: Wait>(rt: &R, turn: &Turn<Ends>, mut pass: Pass<Ends>, last: u64, steps: u64) -> Tally
    requires { pass.turn ≡ turn.now }
{
    let mut wakes: u64 = 0;
    let mut reported = 0;
    let mut noise: u64 = 0;
    for _ in rt.forever() {
        let flushed = turn.act(rt, &mut pass, Ask::Read).reply;
        if flushed > reported {
            noise = work(noise, steps);
            reported = turn.act(rt, &mut pass, Ask::Report(flushed)).reply;
        } else {
            turn.wait_for_change(rt, &mut pass);
            wakes = wakes.saturating_add(1);
        }
        if reported >= last {
            break;
        }
    }
    Tally {
        events: pass.seen(),
        wakes,
        noise,
    }
}

fn two_clients<R: Threads + Wait + Sync>(
    rt: &R,
    turn: &Turn<Ends>,
    pass: Pass<Ends>,
    commits: u64,
) -> Tally
    requires { pass.turn ≡ turn.now }
{
    let (one, other) = turn.split(pass);
    let (left, right) = join(
        rt,
        || -> Tally
            requires { one.turn ≡ turn.now }
        { one_client(rt, turn, one, commits) },
        || -> Tally
            requires { other.turn ≡ turn.now }
        { one_client(rt, turn, other, commits) },
    );
    left.and(right)
}

fn four_clients<R: Threads + Wait + Sync>(
    rt: &R,
    turn: &Turn<Ends>,
    pass: Pass<Ends>,
    commits: u64,
) -> Tally
    requires { pass.turn ≡ turn.now }
{
    let (one, other) = turn.split(pass);
    let (left, right) = join(
        rt,
        || -> Tally
            requires { one.turn ≡ turn.now }
        { two_clients(rt, turn, one, commits) },
        || -> Tally
            requires { other.turn ≡ turn.now }
        { two_clients(rt, turn, other, commits) },
    );
    left.and(right)
}

fn eight_clients<R: Threads + Wait + Sync>(
    rt: &R,
    turn: &Turn<Ends>,
    pass: Pass<Ends>,
    commits: u64,
) -> Tally
    requires { pass.turn ≡ turn.now }
{
    let (one, other) = turn.split(pass);
    let (left, right) = join(
        rt,
        || -> Tally
            requires { one.turn ≡ turn.now }
        { four_clients(rt, turn, one, commits) },
        || -> Tally
            requires { other.turn ≡ turn.now }
        { four_clients(rt, turn, other, commits) },
    );
    left.and(right)
}

/// Eight clients that commit so often each, beside one standby.
pub fn eight_and_standby<R: Threads + Wait + Sync>(
    rt: &R,
    turn: &Turn<Ends>,
    pass: Pass<Ends>,
    commits: u64,
    steps: u64,
) -> Tally
    requires { pass.turn ≡ turn.now }
{
    let (one, other) = turn.split(pass);
    let (left, right) = join(
        rt,
        || -> Tally
            requires { one.turn ≡ turn.now }
        { eight_clients(rt, turn, one, commits) },
        || -> Tally
            requires { other.turn ≡ turn.now }
        {
            standby(
                rt,
                turn,
                other,
                commits.saturating_mul(8),
                steps.saturating_mul(20),
            )
        },
    );
    left.and(right)
}
