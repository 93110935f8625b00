//! The row of `CREATE_REPLICATION_SLOT`, token by token.
ghost use Rattle.std.specs.Prelude.{◌≡◌, ◌≢◌, IfOk, IfErr, codes};
ghost use Rattle.repl_cmd.specs.declared.state.State.TheVariants as State;
ghost use Rattle.repl_cmd.specs.declared.token.Kind.TheVariants as Kind;
ghost use Rattle.repl_cmd.specs.declared.command.Command.TheVariants as Command;
ghost use Rattle.repl_cmd.specs.Command.{IsKeyword};
ghost use Rattle.repl_cmd.specs.Walk.{Steps, IsStop};
ghost use Rattle.repl_cmd.specs.Wanted.{IsNotPhysical};

use crate::command::Command;
use crate::fault::{CmdFault, Unsupported};
use crate::name::SlotName;
use crate::state::State;
use crate::token::{Kind, Token};

/// After `CREATE_REPLICATION_SLOT`: the slot's name.
pub(crate) fn created_name(token: Token) -> Result<State, CmdFault>
    requires { token.kind ≢ Kind.Semicolon }
    ensures ok { IfOk result (λ state. Steps State.Create token state) }
    ensures err { IfErr result (λ fault. IsStop State.Create token fault) }
{
    Ok(State::CreateNamed(token.wanted_slot()?))
}

/// After the name: `TEMPORARY`, or `PHYSICAL`.
pub(crate) fn temporary_or_physical(name: SlotName, token: &Token) -> Result<State, CmdFault>
    requires { token.now.kind ≢ Kind.Semicolon }
    ensures ok { IfOk result (λ state. Steps (State.CreateNamed name) token.now state) }
    ensures err { IfErr result (λ fault. IsStop (State.CreateNamed name) token.now fault) }
{
    if token.is_keyword(b"temporary") {
        return Ok(State::CreateTemporary(name));
    }
    physical(name, false, token)
}

/// After `TEMPORARY`: `PHYSICAL`.
pub(crate) fn physical_past_temporary(name: SlotName, token: &Token) -> Result<State, CmdFault>
    requires { token.now.kind ≢ Kind.Semicolon }
    ensures ok { IfOk result (λ state. Steps (State.CreateTemporary name) token.now state) }
    ensures err { IfErr result (λ fault. IsStop (State.CreateTemporary name) token.now fault) }
{
    physical(name, true, token)
}

/// `PHYSICAL`, in whose place PostgreSQL knows `LOGICAL`.
fn physical(name: SlotName, temporary: bool, token: &Token) -> Result<State, CmdFault>
    ensures ok { IfOk result (λ state. IsKeyword (codes "physical") token.now × (state ≡ State.Created name temporary)) }
    ensures err { IfErr result (λ fault. IsNotPhysical token.now fault) }
{
    if token.is_keyword(b"physical") {
        return Ok(State::Created { name, temporary });
    }
    Err(if token.is_keyword(b"logical") {
        CmdFault::Unsupported(Unsupported::Logical)
    } else {
        token.syntax()
    })
}

/// After `PHYSICAL`: `RESERVE_WAL`, or an opening parenthesis.
pub(crate) fn reserve_or_opening(
    name: SlotName,
    temporary: bool,
    token: &Token,
) -> Result<State, CmdFault>
    requires { token.now.kind ≢ Kind.Semicolon }
    ensures ok { IfOk result (λ state. Steps (State.Created name temporary) token.now state) }
    ensures err { IfErr result (λ fault. IsStop (State.Created name temporary) token.now fault) }
{
    if token.kind == Kind::Opening {
        return Ok(State::CreateOpened { name, temporary });
    }
    if token.is_keyword(b"reserve_wal") {
        return Ok(created(name, temporary, true));
    }
    Err(token.syntax())
}

/// In parentheses: `RESERVE_WAL`.
pub(crate) fn reserve_option(
    name: SlotName,
    temporary: bool,
    token: &Token,
) -> Result<State, CmdFault>
    requires { token.now.kind ≢ Kind.Semicolon }
    ensures ok { IfOk result (λ state. Steps (State.CreateOpened name temporary) token.now state) }
    ensures err { IfErr result (λ fault. IsStop (State.CreateOpened name temporary) token.now fault) }
{
    if token.is_keyword(b"reserve_wal") {
        Ok(State::CreateOption { name, temporary })
    } else {
        Err(token.syntax())
    }
}

/// After `RESERVE_WAL` in parentheses: its value, or the closing parenthesis.
pub(crate) fn flag_or_closing(
    name: SlotName,
    temporary: bool,
    token: &Token,
) -> Result<State, CmdFault>
    requires { token.now.kind ≢ Kind.Semicolon }
    ensures ok { IfOk result (λ state. Steps (State.CreateOption name temporary) token.now state) }
    ensures err { IfErr result (λ fault. IsStop (State.CreateOption name temporary) token.now fault) }
{
    if token.kind == Kind::Closing {
        return Ok(created(name, temporary, true));
    }
    match token.flag() {
        Some(reserve) => Ok(State::CreateValued {
            name,
            temporary,
            reserve,
        }),
        None => Err(token.syntax()),
    }
}

/// After the value: the closing parenthesis.
pub(crate) fn closing(
    name: SlotName,
    temporary: bool,
    reserve: bool,
    token: &Token,
) -> Result<State, CmdFault>
    requires { token.now.kind ≢ Kind.Semicolon }
    ensures ok { IfOk result (λ state. Steps (State.CreateValued name temporary reserve) token.now state) }
    ensures err { IfErr result (λ fault. IsStop (State.CreateValued name temporary reserve) token.now fault) }
{
    if token.kind == Kind::Closing {
        Ok(created(name, temporary, reserve))
    } else {
        Err(token.syntax())
    }
}

/// The whole command.
fn created(name: SlotName, temporary: bool, reserve: bool) -> State
    ensures { result ≡ State.Done (Command.CreateSlot name temporary reserve) }
{
    State::Done(Command::CreateSlot {
        name,
        temporary,
        reserve,
    })
}
