//! The row of `START_REPLICATION`, token by token.
ghost use Rattle.std.specs.Prelude.{◌≡◌, ◌≢◌, IfOk, IfErr, ℕ};
ghost use Rattle.repl_cmd.specs.declared.state.State.TheVariants as State;
ghost use Rattle.repl_cmd.specs.declared.token.Kind.TheVariants as Kind;
ghost use Rattle.repl_cmd.specs.Walk.{Steps, IsStop};
ghost use Rattle.repl_cmd.specs.Command.{IsPosition};
ghost use Rattle.repl_cmd.specs.Wanted.{IsNoPosition, IsLogicalOrNone};

use crate::command::Command;
use crate::fault::{CmdFault, Unsupported};
use crate::name::SlotName;
use crate::state::State;
use crate::token::{Kind, Token};
use repl_lsn::{Lsn, Tli};

/// After `START_REPLICATION`: `SLOT`, `PHYSICAL`, or the position.
pub(crate) fn slot_or_position(token: &Token) -> Result<State, CmdFault>
    requires { token.now.kind ≢ Kind.Semicolon }
    ensures ok { IfOk result (λ state. Steps State.Stream token.now state) }
    ensures err { IfErr result (λ fault. IsStop State.Stream token.now fault) }
{
    if token.is_keyword(b"slot") {
        return Ok(State::StreamSlot);
    }
    if token.is_keyword(b"physical") {
        return Ok(State::StreamPhysical(None));
    }
    position_or_logical(None, token)
}

/// After `SLOT`: its name.
pub(crate) fn streamed_slot(token: Token) -> Result<State, CmdFault>
    requires { token.kind ≢ Kind.Semicolon }
    ensures ok { IfOk result (λ state. Steps State.StreamSlot token state) }
    ensures err { IfErr result (λ fault. IsStop State.StreamSlot token fault) }
{
    Ok(State::StreamNamed(token.wanted_slot()?))
}

/// After the slot's name: `PHYSICAL`, or the position.
pub(crate) fn physical_or_position(name: SlotName, token: &Token) -> Result<State, CmdFault>
    requires { token.now.kind ≢ Kind.Semicolon }
    ensures ok { IfOk result (λ state. Steps (State.StreamNamed name) token.now state) }
    ensures err { IfErr result (λ fault. IsStop (State.StreamNamed name) token.now fault) }
{
    if token.is_keyword(b"physical") {
        return Ok(State::StreamPhysical(Some(name)));
    }
    position_or_logical(Some(name), token)
}

/// After `PHYSICAL`: the position.
pub(crate) fn position(slot: Option<SlotName>, token: &Token) -> Result<State, CmdFault>
    requires { token.now.kind ≢ Kind.Semicolon }
    ensures ok { IfOk result (λ state. Steps (State.StreamPhysical slot) token.now state) }
    ensures err { IfErr result (λ fault. IsStop (State.StreamPhysical slot) token.now fault) }
{
    streamed(slot, token)
}

/// The position, in whose place PostgreSQL knows `LOGICAL`.
fn position_or_logical(slot: Option<SlotName>, token: &Token) -> Result<State, CmdFault>
    ensures ok { IfOk result (λ state. (at : ℕ) × IsPosition at token.now × (state ≡ State.Streamed slot at)) }
    ensures err { IfErr result (λ fault. IsLogicalOrNone token.now fault) }
{
    if token.is_keyword(b"logical") {
        return Err(CmdFault::Unsupported(Unsupported::Logical));
    }
    streamed(slot, token)
}

/// The position, after which a command may end.
fn streamed(slot: Option<SlotName>, token: &Token) -> Result<State, CmdFault>
    ensures ok { IfOk result (λ state. (at : ℕ) × IsPosition at token.now × (state ≡ State.Streamed slot at)) }
    ensures err { IfErr result (λ fault. IsNoPosition token.now fault) }
{
    let at = token.wanted_position()?;
    Ok(State::Streamed { slot, at })
}

/// Past the position: `TIMELINE`.
pub(crate) fn timeline_word(
    slot: Option<SlotName>,
    at: Lsn,
    token: &Token,
) -> Result<State, CmdFault>
    requires { token.now.kind ≢ Kind.Semicolon }
    ensures ok { IfOk result (λ state. Steps (State.Streamed slot at) token.now state) }
    ensures err { IfErr result (λ fault. IsStop (State.Streamed slot at) token.now fault) }
{
    if token.is_keyword(b"timeline") {
        Ok(State::StreamTimeline { slot, at })
    } else {
        Err(token.syntax())
    }
}

/// After `TIMELINE`: its number.
pub(crate) fn timeline(slot: Option<SlotName>, at: Lsn, token: &Token) -> Result<State, CmdFault>
    requires { token.now.kind ≢ Kind.Semicolon }
    ensures ok { IfOk result (λ state. Steps (State.StreamTimeline slot at) token.now state) }
    ensures err { IfErr result (λ fault. IsStop (State.StreamTimeline slot at) token.now fault) }
{
    let number = token.wanted_number(1)?;
    Ok(State::Done(Command::StartReplication {
        slot,
        at,
        timeline: Some(Tli(number)),
    }))
}
