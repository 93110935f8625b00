//! Messages and commands.
ghost use Rattle.std.specs.Prelude.{◌≡◌};

use crate::crossing::there_and_back;
use repl_cmd::Command;
use repl_message::{Back, Front, Message, Startup};
use std::thread::Threads;

/// A message of each kind: what comes first, what a client and what a server sends, and any of them.
pub fn hand_messages<R: Threads>(
    rt: &R,
    startup: Startup,
    front: Front,
    back: Back,
    message: Message,
) -> (Startup, Front, Back, Message)
    ensures { result ≡ (startup, front, back, message) }
{
    (
        there_and_back(rt, startup),
        there_and_back(rt, front),
        there_and_back(rt, back),
        there_and_back(rt, message),
    )
}

/// A command.
pub fn hand_command<R: Threads>(rt: &R, command: Command) -> Command
    ensures { result ≡ command }
{
    there_and_back(rt, command)
}
