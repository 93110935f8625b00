ghost use Rattle.std.specs.Prelude.{◌≡◌, ℕ, ◌↔◌, IsTrue};
ghost use Rattle.repl_identify.specs.Session.{IsReplication, HasUser, IsPhysical, HasNoOption, IsOption, IsTrueValue};

use repl_wire::{Pair, Pairs};

/// Whether the parameters have a user, ask for physical replication, and name no option of the protocol.
pub(crate) fn asks_for_replication(pairs: &Pairs) -> bool
    ensures { IsTrue result ↔ IsReplication pairs.now }
{
    has_user(pairs.as_slice()) && is_physical(pairs) && has_no_option(pairs.as_slice())
}

fn has_user(pairs: &[Pair]) -> bool
    ensures { IsTrue result ↔ HasUser pairs.now }
{
    pairs
        .iter()
        .any(|pair| pair.name.as_slice() == b"user".as_slice())
}

fn has_no_option(pairs: &[Pair]) -> bool
    ensures { IsTrue result ↔ HasNoOption pairs.now }
{
    pairs.iter().all(|pair| is_no_option(pair.name.as_slice()))
}

/// Whether a parameter of this name is none of the protocol's options.
fn is_no_option(name: &[u8]) -> bool
    ensures { IsTrue result ↔ (¬ IsOption name.now) }
{
    !name.starts_with(b"_pq_.")
}

/// Whether the last value of `replication` asks for physical replication.
fn is_physical(pairs: &Pairs) -> bool
    ensures { IsTrue result ↔ IsPhysical pairs.now }
{
    match pairs.value_of(b"replication") {
        Some(value) => is_true_value(value.as_slice()),
        None => false,
    }
}

fn is_true_value(value: &[u8]) -> bool
    ensures { IsTrue result ↔ IsTrueValue value.now }
{
    value == b"true".as_slice()
        || value == b"on".as_slice()
        || value == b"yes".as_slice()
        || value == b"1".as_slice()
}
