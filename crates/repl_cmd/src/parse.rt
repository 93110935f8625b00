ghost use Rattle.std.specs.Prelude.{◌≡◌, ◌⊎◌, Ok, Err, IfOk, IfErr};
ghost use Rattle.repl_cmd.specs.declared.command.Command.{Command};
ghost use Rattle.repl_cmd.specs.declared.fault.CmdFault.TheVariants as CmdFault;
ghost use Rattle.repl_cmd.specs.Command.{SaysCommand};
ghost use Rattle.repl_cmd.specs.Refusal.{IsCommandFault};

use crate::command::Command;
use crate::fault::CmdFault;
use crate::lexicon::CommandLexicon;
use crate::state::State;
use crate::token::command_token;
use repl_token::next_token;
use std::alloc::Global;

/// The command or statement that the text says. Takes memory.
///
/// Tokens are judged from left to right, and the first with which no command goes on decides.
pub fn parse_command(alloc: Global, text: &[u8]) -> Result<Command, CmdFault>
    // What is read is what the text says.
    ensures read { IfOk result (λ command. SaysCommand text.now command) }
    // Each refusal has its cause.
    ensures refused { IfErr result (λ fault. IsCommandFault text.now fault) }
    // What the text says is read.
    ensures only { (command : Command) → SaysCommand text.now command → (result ≡ Ok command) ⊎ (result ≡ Err CmdFault.Memory) }
{
    let mut state = State::Start;
    let mut at = 0;
    while let Some((token, end)) = next_token::<CommandLexicon>(alloc, text, at)? {
        state = state.next(alloc, command_token(token))?;
        at = end;
    }
    match state.finish() {
        Some(command) => Ok(command),
        None => Err(CmdFault::Syntax(text.len() as u64)),
    }
}
