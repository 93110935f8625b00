ghost use Rattle.std.specs.Prelude.{◌≡◌, ◌<◌, ◌↔◌, ℕ, IsTrue, IfOk, MatchOption};
ghost use Rattle.repl_identify.specs.declared.stage.Stage.TheVariants as Stage;
ghost use Rattle.repl_identify.specs.Stages.{Goes, asks};
ghost use Rattle.repl_cmd.specs.declared.command.Command.TheVariants as command;
ghost use Rattle.repl_cmd.specs.Command as commands;

use crate::parameters::asks_for_replication;
use repl_cmd::{CmdFault, Command, parse_command};
use repl_wire::{Front, Message, Startup};
use std::alloc::{AllocError, Global};

/// What a session asks for.
#[derive(Clone, Copy)]
pub(crate) struct Session {
    /// How many requests for encryption come before the startup packet.
    pub(crate) requests: usize,
    /// How many times IDENTIFY_SYSTEM is asked.
    pub(crate) questions: usize,
}

/// How far a session has come.
#[derive(Clone, Copy)]
pub(crate) enum Stage {
    /// A startup packet comes, after so many requests for encryption.
    Starting(usize),
    /// Questions come, or the end.
    Asking(Session),
    /// Nothing comes.
    Over(Session),
}

impl Stage {
    /// The stage after this message, or `None` where no session goes on with it.
    pub(crate) fn after(self, alloc: Global, message: &Message) -> Result<Option<Stage>, AllocError>
        requires { asks self < usize.MAX }
        ensures { IfOk result (λ found. MatchOption found ((next : Stage) → ¬ Goes self message.now next) (λ next. Goes self message.now next)) }
    {
        match self {
            Stage::Starting(requests) => Ok(after_packet(requests, message)),
            Stage::Asking(session) => after_message(alloc, session, message),
            Stage::Over(_) => Ok(None),
        }
    }
}

/// The stage after a packet that follows so many requests.
fn after_packet(requests: usize, message: &Message) -> Option<Stage>
    requires { requests < usize.MAX }
    ensures { MatchOption result ((next : Stage) → ¬ Goes (Stage.Starting requests) message.now next) (λ next. Goes (Stage.Starting requests) message.now next) }
{
    match message {
        Message::Startup(Startup::Ssl) | Message::Startup(Startup::Gss) => {
            Some(Stage::Starting(requests + 1))
        }
        Message::Startup(Startup::Params(pairs)) if asks_for_replication(pairs) => {
            Some(Stage::Asking(Session {
                requests,
                questions: 0,
            }))
        }
        _ => None,
    }
}

/// The stage after a message of the started session.
fn after_message(
    alloc: Global,
    session: Session,
    message: &Message,
) -> Result<Option<Stage>, AllocError>
    requires { session.questions < usize.MAX }
    ensures { IfOk result (λ found. MatchOption found ((next : Stage) → ¬ Goes (Stage.Asking session) message.now next) (λ next. Goes (Stage.Asking session) message.now next)) }
{
    match message {
        Message::Front(Front::Query(text)) => {
            if !is_question(alloc, text.as_slice())? {
                return Ok(None);
            }
            Ok(Some(Stage::Asking(Session {
                requests: session.requests,
                questions: session.questions + 1,
            })))
        }
        Message::Front(Front::Terminate) => Ok(Some(Stage::Over(session))),
        _ => Ok(None),
    }
}

/// Whether the text says IDENTIFY_SYSTEM.
fn is_question(alloc: Global, text: &[u8]) -> Result<bool, AllocError>
    ensures { IfOk result (λ says. IsTrue says ↔ commands.SaysCommand text.now command.IdentifySystem) }
{
    match parse_command(alloc, text) {
        Ok(Command::IdentifySystem) => Ok(true),
        Err(CmdFault::Memory) => Err(AllocError),
        Ok(_) | Err(_) => Ok(false),
    }
}
