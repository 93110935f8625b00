//! The rows of `SET` and `ALTER SYSTEM SET`, token by token.
ghost use Rattle.std.specs.Prelude.{◌≡◌, ◌≢◌, ◌⊎◌, IfOk, IfErr, Some, None};
ghost use Rattle.repl_cmd.specs.declared.state.State.TheVariants as State;
ghost use Rattle.repl_cmd.specs.declared.token.Kind.TheVariants as Kind;
ghost use Rattle.repl_cmd.specs.Walk.{Steps, IsStop};
ghost use Rattle.repl_names.specs.declared.fault.NamesFault.TheVariants as NamesFault;
ghost use Rattle.repl_cmd.specs.declared.fault.CmdFault.TheVariants as CmdFault;

use crate::command::Command;
use crate::fault::CmdFault;
use crate::state::State;
use crate::token::{Kind, Token};
use repl_names::{NamesFault, parse_names};
use std::alloc::Global;

/// After `SET`: `synchronous_commit`.
pub(crate) fn set_parameter(token: &Token) -> Result<State, CmdFault>
    requires { token.now.kind ≢ Kind.Semicolon }
    ensures ok { IfOk result (λ state. Steps State.Set token.now state) }
    ensures err { IfErr result (λ fault. IsStop State.Set token.now fault) }
{
    if token.is_keyword(b"synchronous_commit") {
        Ok(State::SetCommit)
    } else {
        Err(token.syntax())
    }
}

/// After `synchronous_commit`: `=` or `TO`.
pub(crate) fn set_sign(token: &Token) -> Result<State, CmdFault>
    requires { token.now.kind ≢ Kind.Semicolon }
    ensures ok { IfOk result (λ state. Steps State.SetCommit token.now state) }
    ensures err { IfErr result (λ fault. IsStop State.SetCommit token.now fault) }
{
    if token.kind == Kind::Equals || token.is_keyword(b"to") {
        Ok(State::SetValue)
    } else {
        Err(token.syntax())
    }
}

/// After the sign: the value.
pub(crate) fn set_value(token: &Token) -> Result<State, CmdFault>
    requires { token.now.kind ≢ Kind.Semicolon }
    ensures ok { IfOk result (λ state. Steps State.SetValue token.now state) }
    ensures err { IfErr result (λ fault. IsStop State.SetValue token.now fault) }
{
    match token.setting() {
        Some(setting) => Ok(State::Done(Command::SetCommit(setting))),
        None => Err(token.syntax()),
    }
}

/// After `ALTER`: `SYSTEM`.
pub(crate) fn system_word(token: &Token) -> Result<State, CmdFault>
    requires { token.now.kind ≢ Kind.Semicolon }
    ensures ok { IfOk result (λ state. Steps State.Alter token.now state) }
    ensures err { IfErr result (λ fault. IsStop State.Alter token.now fault) }
{
    if token.is_keyword(b"system") {
        Ok(State::AlterSystem)
    } else {
        Err(token.syntax())
    }
}

/// After `SYSTEM`: `SET`.
pub(crate) fn set_word(token: &Token) -> Result<State, CmdFault>
    requires { token.now.kind ≢ Kind.Semicolon }
    ensures ok { IfOk result (λ state. Steps State.AlterSystem token.now state) }
    ensures err { IfErr result (λ fault. IsStop State.AlterSystem token.now fault) }
{
    if token.is_keyword(b"set") {
        Ok(State::AlterSet)
    } else {
        Err(token.syntax())
    }
}

/// After `SET`: `synchronous_standby_names`.
pub(crate) fn altered_parameter(token: &Token) -> Result<State, CmdFault>
    requires { token.now.kind ≢ Kind.Semicolon }
    ensures ok { IfOk result (λ state. Steps State.AlterSet token.now state) }
    ensures err { IfErr result (λ fault. IsStop State.AlterSet token.now fault) }
{
    if token.is_keyword(b"synchronous_standby_names") {
        Ok(State::AlterNames)
    } else {
        Err(token.syntax())
    }
}

/// After `synchronous_standby_names`: `=`, and no `TO`.
pub(crate) fn altered_sign(token: &Token) -> Result<State, CmdFault>
    requires { token.now.kind ≢ Kind.Semicolon }
    ensures ok { IfOk result (λ state. Steps State.AlterNames token.now state) }
    ensures err { IfErr result (λ fault. IsStop State.AlterNames token.now fault) }
{
    if token.kind == Kind::Equals {
        Ok(State::AlterText)
    } else {
        Err(token.syntax())
    }
}

/// After the sign: the standby list. Takes memory.
pub(crate) fn altered_names(alloc: Global, token: &Token) -> Result<State, CmdFault>
    requires { token.now.kind ≢ Kind.Semicolon }
    ensures ok { IfOk result (λ state. Steps State.AlterText token.now state) }
    ensures err { IfErr result (λ fault. (fault ≡ CmdFault.Memory) ⊎ IsStop State.AlterText token.now fault) }
{
    if token.kind != Kind::Text {
        return Err(token.syntax());
    }
    match parse_names(alloc, &token.text) {
        Ok(list) => Ok(State::Done(Command::SetNames(list))),
        Err(fault) => Err(names_fault(fault)),
    }
}

/// The fault of a text that is no standby list.
fn names_fault(fault: NamesFault) -> CmdFault
    ensures { ((fault ≡ NamesFault.Memory) × (result ≡ CmdFault.Memory)) ⊎ ((fault ≢ NamesFault.Memory) × (result ≡ CmdFault.BadNames fault)) }
{
    match fault {
        NamesFault::Memory => CmdFault::Memory,
        _ => CmdFault::BadNames(fault),
    }
}
