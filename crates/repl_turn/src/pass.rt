ghost use Rattle.std.specs.Prelude.{◌≡◌, length};

use crate::machine::Machine;
use crate::rule::Token;
use std::marker::Model;

/// What one caller of a turn knows: how much of the turn's history it has seen, and which calls in it are its own.
/// A pass is of one turn, and can go to another thread. The history itself is kept nowhere: a pass has its length.
#[derive(Drop)]
pub struct Pass<M: Machine> {
    pub(crate) count: u64,
    pub(crate) token: Token<M>,
}

impl<M: Machine> Model for Pass<M> {
    ghost use Rattle.std.specs.Prelude.{◌≡◌, ◌<◌, [], length};
    ghost use Rattle.repl_turn.specs.History.{Known};
    ghost use Rattle.repl_turn.specs.declared.rule.Stage.TheVariants.{Idle};

    ghost Value = { Known M M.Event M.Reply };

    ghost view = { λ p. record {
      turn = record { table = p.token.table_id; opening = p.token.me.0.opening };
      seen = p.token.me.0.seen;
      numbers = p.token.me.0.numbers;
    } };

    ghost invariant = { λ p. (p.count ≡ length p.token.me.0.seen) × (p.token.me.0.stage ≡ Idle) × (p.token.me.1 ≡ []) × (0 < length p.token.me.0.numbers) };
}

impl<M: Machine> Pass<M> {
    /// How many events of the history it has seen.
    pub fn seen(&self) -> u64
        ensures { result ≡ length self.now.seen }
    {
        self.count
    }
}
