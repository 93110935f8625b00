//! The command lines of `pgnode`, as a table.
ghost use Rattle.std.specs.Prelude.{◌≡◌};

use crate::kinds::Word;
use repl_args::{Form, OptionForm, Table, Tail};

/// What a command line asks for.
#[derive(Clone, Copy)]
pub(crate) enum Command {
    Identify,
    Frames,
    Names,
    History,
    Init,
    Status,
    Check,
}

/// The forms of the commands, each after `[-D DIR]`.
pub(crate) const TABLE: Table<'static, Word, Command> = Table {
    lead: Some(OptionForm {
        name: "-D",
        kind: Word::Text,
    }),
    forms: &[
        Form {
            command: Command::Identify,
            name: "identify",
            arguments: &[Word::System, Word::Timeline, Word::Position],
            tail: Tail::Nothing,
        },
        Form {
            command: Command::Frames,
            name: "frames",
            arguments: &[Word::Side],
            tail: Tail::Nothing,
        },
        Form {
            command: Command::Names,
            name: "names",
            arguments: &[Word::Text],
            tail: Tail::Nothing,
        },
        Form {
            command: Command::History,
            name: "history",
            arguments: &[Word::Timeline],
            tail: Tail::Nothing,
        },
        Form {
            command: Command::Init,
            name: "init",
            arguments: &[Word::Role, Word::System],
            tail: Tail::Maybe(Word::Magic),
        },
        Form {
            command: Command::Status,
            name: "status",
            arguments: &[],
            tail: Tail::Nothing,
        },
        Form {
            command: Command::Check,
            name: "check",
            arguments: &[],
            tail: Tail::Nothing,
        },
    ],
};
