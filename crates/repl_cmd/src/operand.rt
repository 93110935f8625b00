//! The rows of the other commands that go on after their first word, token by token.
ghost use Rattle.std.specs.Prelude.{◌≡◌, ◌≢◌, ◌⊎◌, IfOk, IfErr, Some, None};
ghost use Rattle.repl_cmd.specs.declared.state.State.TheVariants as State;
ghost use Rattle.repl_cmd.specs.declared.token.Kind.TheVariants as Kind;
ghost use Rattle.repl_cmd.specs.Walk.{Steps, IsStop};
ghost use Rattle.repl_cmd.specs.declared.fault.CmdFault.TheVariants as CmdFault;

use crate::command::Command;
use crate::fault::CmdFault;
use crate::name::SlotName;
use crate::state::State;
use crate::token::{Kind, Token};
use repl_lsn::Tli;
use std::alloc::Global;

/// After `SHOW`: the parameter's name.
pub(crate) fn shown_parameter(token: Token) -> Result<State, CmdFault>
    requires { token.kind ≢ Kind.Semicolon }
    ensures ok { IfOk result (λ state. Steps State.Show token state) }
    ensures err { IfErr result (λ fault. IsStop State.Show token fault) }
{
    let fault = token.syntax();
    match token.parameter() {
        Some(name) => Ok(State::Done(Command::Show(name))),
        None => Err(fault),
    }
}

/// After `TIMELINE_HISTORY`: the timeline.
pub(crate) fn history_timeline(token: &Token) -> Result<State, CmdFault>
    requires { token.now.kind ≢ Kind.Semicolon }
    ensures ok { IfOk result (λ state. Steps State.History token.now state) }
    ensures err { IfErr result (λ fault. IsStop State.History token.now fault) }
{
    let number = token.wanted_number(1)?;
    Ok(State::Done(Command::TimelineHistory(Tli(number))))
}

/// After `DROP_REPLICATION_SLOT`: the slot's name.
pub(crate) fn dropped_name(token: Token) -> Result<State, CmdFault>
    requires { token.kind ≢ Kind.Semicolon }
    ensures ok { IfOk result (λ state. Steps State.DropSlot token state) }
    ensures err { IfErr result (λ fault. IsStop State.DropSlot token fault) }
{
    Ok(State::Dropped(token.wanted_slot()?))
}

/// After the name: `WAIT`.
pub(crate) fn wait_word(name: SlotName, token: &Token) -> Result<State, CmdFault>
    requires { token.now.kind ≢ Kind.Semicolon }
    ensures ok { IfOk result (λ state. Steps (State.Dropped name) token.now state) }
    ensures err { IfErr result (λ fault. IsStop (State.Dropped name) token.now fault) }
{
    if token.is_keyword(b"wait") {
        Ok(State::Done(Command::DropSlot { name, wait: true }))
    } else {
        Err(token.syntax())
    }
}

/// After `READ_REPLICATION_SLOT`: the slot's name.
pub(crate) fn read_name(token: Token) -> Result<State, CmdFault>
    requires { token.kind ≢ Kind.Semicolon }
    ensures ok { IfOk result (λ state. Steps State.ReadSlot token state) }
    ensures err { IfErr result (λ fault. IsStop State.ReadSlot token fault) }
{
    Ok(State::Done(Command::ReadSlot(token.wanted_slot()?)))
}

/// After `APPEND`: the transaction's number.
pub(crate) fn transaction(token: &Token) -> Result<State, CmdFault>
    requires { token.now.kind ≢ Kind.Semicolon }
    ensures ok { IfOk result (λ state. Steps State.Append token.now state) }
    ensures err { IfErr result (λ fault. IsStop State.Append token.now fault) }
{
    Ok(State::AppendBody(token.wanted_number(0)?))
}

/// After the number: the record's bytes. Takes memory.
pub(crate) fn record_body(alloc: Global, xid: u32, token: &Token) -> Result<State, CmdFault>
    requires { token.now.kind ≢ Kind.Semicolon }
    ensures ok { IfOk result (λ state. Steps (State.AppendBody xid) token.now state) }
    ensures err { IfErr result (λ fault. (fault ≡ CmdFault.Memory) ⊎ IsStop (State.AppendBody xid) token.now fault) }
{
    match token.body(alloc)? {
        Some(body) => Ok(State::Done(Command::Append { xid, body })),
        None => Err(token.syntax()),
    }
}

/// After `PROMOTE`: the timeline.
pub(crate) fn promoted_timeline(token: &Token) -> Result<State, CmdFault>
    requires { token.now.kind ≢ Kind.Semicolon }
    ensures ok { IfOk result (λ state. Steps State.Promote token.now state) }
    ensures err { IfErr result (λ fault. IsStop State.Promote token.now fault) }
{
    let number = token.wanted_number(1)?;
    Ok(State::Done(Command::Promote(Some(Tli(number)))))
}
