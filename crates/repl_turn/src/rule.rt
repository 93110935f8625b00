// What the table under a turn keeps true, and what each step on it tells. No value of these types is made.
use crate::machine::{Entry, Machine};
use atomic_table::{Join, Play, Seat, Split, TableRule};
use std::collections::LinkedList;
use std::marker::{Brand, PhantomData};
use std::snapshot::Snapshot;

/// How far a pass is in a call.
pub enum Stage<S, E, R> {
    Idle,
    /// It waits with this ticket.
    Waiting(u64),
    /// This ticket's turn has come, and the machine was taken out in this state.
    Holding(u64, S),
    /// It was split from a pass with these numbers, and has no number yet.
    Unborn(LinkedList<u64>),
    /// It took in a pass with these numbers, which had seen this.
    Joining(LinkedList<u64>, LinkedList<Entry<E, R>>),
}

/// What a pass knows: the state in which the turn opened, a beginning of the history, and its numbers.
pub struct View<S, E, R> {
    pub opening: Option<S>,
    pub seen: LinkedList<Entry<E, R>>,
    pub numbers: LinkedList<u64>,
    pub stage: Stage<S, E, R>,
}

/// A seat at the table of a turn.
pub(crate) type Token<M> = Seat<M, View<M, <M as Machine>::Event, <M as Machine>::Reply>>;

pub struct OneHistory;

impl<M: Machine> TableRule<M, View<M, M::Event, M::Reply>, Snapshot<M>> for OneHistory {
    ghost use Rattle.repl_turn.specs.Rule.{Kept, newcomer};

    ghost holds = { λ key. Kept M.steps key.value };

    ghost first = { λ key. newcomer key.value };
}

/// The event and the reply of a call, which each call picks.
pub(crate) trait Said<E, R> {
    ghost use Rattle.std.specs.Prelude.{Option};

    ghost call: { Option (E × R) };
}

impl<E, R> Said<E, R> for Brand {
    ghost use Rattle.std.specs.Prelude.{None};

    ghost call = { None };
}

pub(crate) struct Draw;

impl<S, E, R> Play<S, View<S, E, R>> for Draw {
    ghost use Rattle.repl_turn.specs.Rule.{Drawn};

    ghost then = { Drawn };
}

pub(crate) struct Look;

impl<S, E, R> Play<S, View<S, E, R>> for Look {
    ghost use Rattle.repl_turn.specs.Rule.{Looked};

    ghost then = { Looked };
}

pub(crate) struct Give<J> {
    call: PhantomData<J>,
}

impl<M: Machine, J: Said<M::Event, M::Reply>> Play<M, View<M, M::Event, M::Reply>> for Give<J> {
    ghost use Rattle.repl_turn.specs.Rule.{Gave};

    ghost then = { Gave M.steps J.call };
}

pub(crate) struct Watch;

impl<M: Machine> Play<M, View<M, M::Event, M::Reply>> for Watch {
    ghost use Rattle.repl_turn.specs.Rule.{Watched};

    ghost then = { λ _. Watched M.steps };
}

pub(crate) struct Christen;

impl<S, E, R> Play<S, View<S, E, R>> for Christen {
    ghost use Rattle.repl_turn.specs.Rule.{Christened};

    ghost then = { Christened };
}

pub(crate) struct Merge;

impl<M: Machine> Play<M, View<M, M::Event, M::Reply>> for Merge {
    ghost use Rattle.repl_turn.specs.Rule.{Merged};

    ghost then = { Merged M.steps };
}

pub(crate) struct Cut;

impl<S, E, R> Split<View<S, E, R>> for Cut {
    ghost use Rattle.repl_turn.specs.Rule.{unborn};

    ghost left = { λ v. v };

    ghost right = { unborn };
}

pub(crate) struct Glue;

impl<S, E, R> Join<View<S, E, R>> for Glue {
    ghost use Rattle.repl_turn.specs.Rule.{joining, nobody};

    ghost both = { joining };

    ghost spent = { nobody };
}
