//! How a token leads from one state to the next.
ghost use Rattle.std.specs.Prelude.{◌≡◌, ◌≢◌, ◌⊎◌, IfOk, IfErr, map};
ghost use Rattle.std.specs.Char.{to_ascii_lowercase};
ghost use Rattle.repl_cmd.specs.declared.fault.CmdFault.TheVariants as CmdFault;
ghost use Rattle.repl_cmd.specs.declared.state.State.TheVariants as State;
ghost use Rattle.repl_cmd.specs.declared.token.Kind.TheVariants as Kind;
ghost use Rattle.repl_cmd.specs.Walk.{Steps, IsStop, finish, first_state};
ghost use Rattle.repl_cmd.specs.Wanted.{is_ended, IsLeftOut};

use crate::command::Command;
use crate::fault::{CmdFault, Unsupported};
use crate::state::State;
use crate::token::{Kind, Token};
use crate::{create, operand, setting, stream};
use std::alloc::Global;

impl State {
    /// The state after the token, or why no command goes on with it. Takes memory for a standby list or a body.
    pub(crate) fn next(self, alloc: Global, token: Token) -> Result<State, CmdFault>
        ensures ok { IfOk result (λ state. Steps self token state) }
        ensures err { IfErr result (λ fault. (fault ≡ CmdFault.Memory) ⊎ IsStop self token fault) }
    {
        if token.kind == Kind::Semicolon {
            return self.close(&token);
        }
        match self {
            State::Start => begin(&token),
            State::Show => operand::shown_parameter(token),
            State::History => operand::history_timeline(&token),
            State::Create => create::created_name(token),
            State::CreateNamed(name) => create::temporary_or_physical(name, &token),
            State::CreateTemporary(name) => create::physical_past_temporary(name, &token),
            State::Created { name, temporary } => {
                create::reserve_or_opening(name, temporary, &token)
            }
            State::CreateOpened { name, temporary } => {
                create::reserve_option(name, temporary, &token)
            }
            State::CreateOption { name, temporary } => {
                create::flag_or_closing(name, temporary, &token)
            }
            State::CreateValued {
                name,
                temporary,
                reserve,
            } => create::closing(name, temporary, reserve, &token),
            State::DropSlot => operand::dropped_name(token),
            State::Dropped(name) => operand::wait_word(name, &token),
            State::ReadSlot => operand::read_name(token),
            State::Stream => stream::slot_or_position(&token),
            State::StreamSlot => stream::streamed_slot(token),
            State::StreamNamed(name) => stream::physical_or_position(name, &token),
            State::StreamPhysical(slot) => stream::position(slot, &token),
            State::Streamed { slot, at } => stream::timeline_word(slot, at, &token),
            State::StreamTimeline { slot, at } => stream::timeline(slot, at, &token),
            State::Append => operand::transaction(&token),
            State::AppendBody(xid) => operand::record_body(alloc, xid, &token),
            State::Set => setting::set_parameter(&token),
            State::SetCommit => setting::set_sign(&token),
            State::SetValue => setting::set_value(&token),
            State::Alter => setting::system_word(&token),
            State::AlterSystem => setting::set_word(&token),
            State::AlterSet => setting::altered_parameter(&token),
            State::AlterNames => setting::altered_sign(&token),
            State::AlterText => setting::altered_names(alloc, &token),
            State::Promote => operand::promoted_timeline(&token),
            State::Done(_) => Err(token.syntax()),
            State::Ended(_) => Err(token.syntax()),
        }
    }

    /// The state after a semicolon, which may stand after a command, but not after another.
    fn close(self, token: &Token) -> Result<State, CmdFault>
        requires { token.now.kind ≡ Kind.Semicolon }
        ensures ok { IfOk result (λ state. Steps self token.now state) }
        ensures err { IfErr result (λ fault. IsStop self token.now fault) }
    {
        if self.is_ended() {
            return Err(token.syntax());
        }
        match self.finish() {
            Some(command) => Ok(State::Ended(command)),
            None => Err(token.syntax()),
        }
    }

    /// Whether the last token is a semicolon.
    fn is_ended(&self) -> bool
        ensures { result ≡ is_ended self.now }
    {
        matches!(self, State::Ended(_))
    }

    /// The command that may end here.
    pub(crate) fn finish(self) -> Option<Command>
        ensures { result ≡ finish self }
    {
        match self {
            State::Created { name, temporary } => Some(Command::CreateSlot {
                name,
                temporary,
                reserve: false,
            }),
            State::Dropped(name) => Some(Command::DropSlot { name, wait: false }),
            State::Streamed { slot, at } => Some(Command::StartReplication {
                slot,
                at,
                timeline: None,
            }),
            State::Promote => Some(Command::Promote(None)),
            State::Done(command) => Some(command),
            State::Ended(command) => Some(command),
            _ => None,
        }
    }
}

/// The state after the first token.
fn begin(token: &Token) -> Result<State, CmdFault>
    requires { token.now.kind ≢ Kind.Semicolon }
    ensures ok { IfOk result (λ state. Steps State.Start token.now state) }
    ensures err { IfErr result (λ fault. IsStop State.Start token.now fault) }
{
    if token.kind != Kind::Word {
        return Err(token.syntax());
    }
    match first_state(token) {
        Some(state) => Ok(state),
        None => Err(left_out(token)),
    }
}

/// The fault of a first word that begins no command.
fn left_out(token: &Token) -> CmdFault
    ensures { IsLeftOut token.now result }
{
    if token.is_keyword(b"base_backup") {
        CmdFault::Unsupported(Unsupported::BaseBackup)
    } else if token.is_keyword(b"upload_manifest") {
        CmdFault::Unsupported(Unsupported::UploadManifest)
    } else if token.is_keyword(b"alter_replication_slot") {
        CmdFault::Unsupported(Unsupported::AlterSlot)
    } else {
        token.syntax()
    }
}

/// The state after a first word.
fn first_state(token: &Token) -> Option<State>
    ensures { result ≡ first_state (map to_ascii_lowercase token.now.text) }
{
    if token.says(b"identify_system") {
        Some(State::Done(Command::IdentifySystem))
    } else if token.says(b"show") {
        Some(State::Show)
    } else if token.says(b"timeline_history") {
        Some(State::History)
    } else if token.says(b"create_replication_slot") {
        Some(State::Create)
    } else if token.says(b"drop_replication_slot") {
        Some(State::DropSlot)
    } else if token.says(b"read_replication_slot") {
        Some(State::ReadSlot)
    } else if token.says(b"start_replication") {
        Some(State::Stream)
    } else if token.says(b"append") {
        Some(State::Append)
    } else if token.says(b"set") {
        Some(State::Set)
    } else if token.says(b"alter") {
        Some(State::Alter)
    } else if token.says(b"promote") {
        Some(State::Promote)
    } else if token.says(b"demote") {
        Some(State::Done(Command::Demote))
    } else if token.says(b"trim") {
        Some(State::Done(Command::Trim))
    } else if token.says(b"status") {
        Some(State::Done(Command::Status))
    } else if token.says(b"stop") {
        Some(State::Done(Command::Stop))
    } else {
        None
    }
}
