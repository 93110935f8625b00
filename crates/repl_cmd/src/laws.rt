ghost use Rattle.std.specs.Prelude.{◌≡◌, ℕ, ◌+◌, ◌<◌, List, ◌++◌, length, take};
ghost use Rattle.repl_text.specs.Language.{StopsAt};
ghost use Rattle.repl_cmd.specs.declared.command.Command.{Command};
ghost use Rattle.repl_cmd.specs.Token.{Lexeme, ReadsLexemes};
ghost use Rattle.repl_cmd.specs.Command.{IsCommand, SaysCommand, IsSaid};
ghost use Rattle.repl_cmd.specs.Printing.{spelling};

/// What is printed is read back as the same command.
pub fn printed_is_read()
    ensures { (c : Command) → IsCommand c → SaysCommand (spelling c) c }
{}

/// A text says one command at most, and what it says is a command.
pub fn one_command()
    ensures one { (text : List ℕ) (a b : Command) → SaysCommand text a → SaysCommand text b → a ≡ b }
    ensures is { (text : List ℕ) (c : Command) → SaysCommand text c → IsCommand c }
{}

/// Where a text leaves the grammar at a token, no text that has the same tokens up to there and that one says a
/// command.
pub fn refused_front()
    ensures { (text other : List ℕ) (tokens more : List Lexeme) (index : ℕ) (c : Command) → ReadsLexemes 0 text tokens →
        StopsAt IsSaid tokens index → index < length tokens → ReadsLexemes 0 other (take (index + 1) tokens ++ more) → ¬ SaysCommand other c }
{}
