ghost use Rattle.std.specs.Prelude.{◌≡◌, ◌<◌, Some, [], ◌∷◌, IfOk, IfErr};
ghost use Rattle.repl_turn.specs.History.{Acts, Ends, Joins, Splits, Watches};

use crate::bell::Bell;
use crate::machine::Machine;
use crate::pass::Pass;
use crate::rule::{Christen, Cut, Glue, Merge, OneHistory, View};
use atomic_table::{Refused, Table};
use std::alloc::{AllocFailed, Global};
use std::array;
use std::marker::{Brand, Model};
use std::snapshot::Snapshot;
use std::sync::Wait;
use std::sync::atomic::AtomicU64;

/// A machine that threads share. One event at a time is made on it, in the order of the history, in which each
/// event stands once. Contracts see a turn as which one it is, with the state in which its machine came.
#[derive(Drop)]
pub struct Turn<M: Machine> {
    pub(crate) table: Table<M, View<M, M::Event, M::Reply>, Snapshot<M>, OneHistory, Global>,
    // Who waits with a ticket sleeps on the bell with this number modulo 64.
    pub(crate) bells: [Bell; 64],
    // 1 where who was last woken before its turn found it while it was awake.
    pub(crate) early: AtomicU64,
    // Who waits for a change sleeps on this one.
    pub(crate) change: Bell,
    // How long the history was after the last event that was not quiet.
    pub(crate) loud: AtomicU64,
}

impl<M: Machine> Model for Turn<M> {
    ghost use Rattle.std.specs.Prelude.{◌≡◌, Some};
    ghost use Rattle.repl_turn.specs.History.{TurnId};

    ghost Value = { TurnId M };

    ghost view = { λ t. record { table = t.table.shared.table_id; opening = Some t.table.shared.key.value } };

    ghost invariant = { λ t. (t.table.shared.table_id.words ≡ 17) × (t.table.shared.table_id.slots ≡ 1) };
}

/// The reply to an event, and the event's place in the history, from 0.
#[derive(Drop)]
pub struct Acted<R> {
    pub reply: R,
    pub at: u64,
}

/// There was no memory. The machine comes back.
#[derive(Drop)]
pub struct NoMemory<M> {
    pub machine: M,
}

/// An event was under way. No call can be, where the turn is owned, but no contract says so. The machine comes back.
#[derive(Drop)]
pub struct Unfinished<M> {
    pub machine: M,
}

impl<M: Machine> Turn<M> {
    /// A turn over this machine, and its first pass, which has seen nothing.
    pub fn new(alloc: Global, machine: M) -> Result<(Turn<M>, Pass<M>), NoMemory<M>>
        ensures turn { IfOk result (λ r. r.0.opening ≡ Some machine) }
        ensures pass { IfOk result (λ r. (r.1.turn ≡ r.0) × (r.1.seen ≡ []) × (r.1.numbers ≡ 0 ∷ [])) }
        ensures err { IfErr result (λ e. e.machine ≡ machine) }
    {
        let opening = Snapshot::of(&machine);
        let mut slots = Vec::new(alloc);
        if let Err(AllocFailed { value }) = slots.push(machine) {
            slots.destroy_empty();
            return Err(NoMemory { machine: value });
        }
        match Table::new(alloc, &[0; 17], slots, &opening) {
            Ok((table, token)) => {
                let turn = Turn {
                    table,
                    bells: array::from_fn(|_| Bell::new()),
                    early: AtomicU64::new(0),
                    change: Bell::new(),
                    loud: AtomicU64::new(0),
                };
                Ok((turn, Pass { count: 0, token }))
            }
            Err(Refused { mut slots }) => {
                let Some(machine) = slots.pop() else {
                    unreachable!()
                };
                slots.destroy_empty();
                Err(NoMemory { machine })
            }
        }
    }

    /// Waits until no other event is being made, and makes this one. It wakes who waits for a change, unless it is quiet.
    pub fn act<R: Wait>(&self, rt: &R, pass: &mut Pass<M>, event: M::Event) -> Acted<M::Reply>
        requires { pass.old.turn ≡ self.now }
        ensures acts { Acts M.steps pass.old event result.reply result.at pass.new }
        ensures made { (before : M) × (after : M) × M.steps before event result.reply after }
    {
        let ticket = self.draw(rt, &mut pass.token, pass.count);
        self.await_turn(rt, &mut pass.token, ticket);
        let quiet = M::is_quiet(&event);
        let asked = Snapshot::of(&event);
        let reply = pass.token.slot_mut(&self.table.shared, 0).act(event);
        let at = self.give::<Brand>(&mut pass.token, asked, &reply);
        pass.count = at + 1;
        self.wake(at + 1, quiet);
        Acted { reply, at }
    }

    /// The pass itself, and a new one, which has seen as much and made nothing.
    pub fn split(&self, pass: Pass<M>) -> (Pass<M>, Pass<M>)
        requires { pass.turn ≡ self.now }
        ensures first { result.0 ≡ pass }
        ensures second { Splits pass result.1 }
    {
        let Pass { count, mut token } = pass;
        let mut other = self.table.shared.split_seat::<Cut>(&mut token);
        self.table.shared.load::<Christen>(&mut other, 0);
        (
            Pass { count, token },
            Pass {
                count,
                token: other,
            },
        )
    }

    /// The first pass, which has taken in what the other has seen and made.
    pub fn join(&self, pass: Pass<M>, other: Pass<M>) -> Pass<M>
        requires first { pass.turn ≡ self.now }
        requires second { other.turn ≡ self.now }
        ensures { Joins M.steps pass other result }
    {
        let Pass { count, mut token } = pass;
        let Pass {
            count: other_count,
            token: other,
        } = other;
        self.table.shared.join_seat::<Glue>(&mut token, other);
        self.table.shared.load::<Merge>(&mut token, 0);
        Pass {
            count: count.max(other_count),
            token,
        }
    }

    /// Takes the turn apart, and gives the machine back, in the state to which the whole history led.
    pub fn into_machine(self, pass: Pass<M>) -> Result<M, Unfinished<M>>
        requires { pass.turn ≡ self }
        ensures { IfOk result (λ machine. Ends M.steps pass machine) }
    {
        let Turn {
            table,
            bells: _,
            early: _,
            change: _,
            loud: _,
        } = self;
        let Pass { count: _, token } = pass;
        let mut closed = table.close_with(token);
        let drawn = closed.word(0);
        let served = closed.word(16);
        let machine = closed.take(0);
        closed.free();
        if drawn == served {
            Ok(machine)
        } else {
            Err(Unfinished { machine })
        }
    }

    /// Waits until an event was made that the pass has not seen and that is not quiet: the history is longer than the pass
    /// has seen. Quiet events alone end no wait, so that those who wait and look do not wake each other.
    pub fn wait_for_change<R: Wait>(&self, rt: &R, pass: &mut Pass<M>)
        requires { pass.old.turn ≡ self.now }
        ensures { Watches M.steps pass.old pass.new }
    {
        // What holds of every turn is known of this one once it is looked at.
        let _ = &self.table;
        pass.count = self.await_change(rt, &mut pass.token, pass.count);
    }
}
