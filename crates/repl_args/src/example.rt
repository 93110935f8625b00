//! A caller with a table of its own, and what it knows of each line: the shape, and of what kind each word is.
ghost use Rattle.std.specs.Prelude.{◌≡◌, IfOk, IfErr, IsTrue};
ghost use Rattle.repl_args.specs.Words.{texts};
ghost use Rattle.repl_args.specs.Forms.{plain, is_table};
ghost use Rattle.repl_args.specs.Lines.{IsUsage};
ghost use Rattle.repl_args.specs.Example.{IsWordOf, IsTask, the_table};

use crate::kind::Kind;
use crate::line::read_line;
use crate::options::option_value;
use crate::table::{Form, OptionForm, Table, Tail};
use crate::words::word_at;

/// The kinds of words.
#[derive(Clone, Copy)]
enum Word {
    Any,
    Bit,
}

impl Kind for Word {
    ghost use Rattle.std.specs.Prelude.{codes};
    ghost use Rattle.std.proofs.Common.{rules};
    ghost use Rattle.repl_args.specs.Example.{IsWordOf, one_is_word};

    ghost is = { IsWordOf };

    ghost some = { one_is_word };

    fn takes(&self, word: &str) -> bool {
        match self {
            Word::Any => true,
            Word::Bit => word == "0" || word == "1",
        }
    }
}

#[derive(Clone, Copy)]
enum Command {
    Names,
    Bit,
    Run,
}

/// `names TEXT`, `bit BIT [TEXT]`, and `run [--first BIT] [--then TEXT]`, each after `[-D DIR]`.
const TABLE: Table<'static, Word, Command> = Table {
    lead: Some(OptionForm {
        name: "-D",
        kind: Word::Any,
    }),
    forms: &[
        Form {
            command: Command::Names,
            name: "names",
            arguments: &[Word::Any],
            tail: Tail::Nothing,
        },
        Form {
            command: Command::Bit,
            name: "bit",
            arguments: &[Word::Bit],
            tail: Tail::Maybe(Word::Any),
        },
        Form {
            command: Command::Run,
            name: "run",
            arguments: &[],
            tail: Tail::Options(&[
                OptionForm {
                    name: "--first",
                    kind: Word::Bit,
                },
                OptionForm {
                    name: "--then",
                    kind: Word::Any,
                },
            ]),
        },
    ],
};

/// What a line asks for, with the words that say so.
enum Task<'w> {
    /// The text.
    Names(&'w str),
    /// The bit.
    Bit(&'w str),
    /// The value of `--first`.
    Run(Option<&'w str>),
}

/// The task of a command line, or the number of the first word with which none goes on.
fn read_task(words: &[String]) -> Result<Task<'_>, usize>
    ensures read { IfOk result (λ task. IsTask (texts words.now) task) }
    ensures wrong { IfErr result (λ word. IsUsage IsWordOf the_table (texts words.now) word) }
{
    let line = match read_line(&TABLE, words) {
        Ok(line) => line,
        Err(word) => return Err(word),
    };
    match line.command {
        Command::Names => Ok(Task::Names(word_at(words, line.first + 1))),
        Command::Bit => Ok(Task::Bit(word_at(words, line.first + 1))),
        Command::Run => Ok(Task::Run(option_value(words, line.past, "--first"))),
    }
}
