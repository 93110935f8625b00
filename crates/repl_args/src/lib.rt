//! Command lines as a table: `[LEAD VALUE] COMMAND argument.. [one argument more | options]`.
//!
//! A program writes the table of its commands. `read_line` reads the words of a command line by it and answers whose line
//! they are, or counts to the first word with which no line of the table goes on. This is proved once, over any table and
//! any kinds of words: `IsUsage` says "goes on" without a word on how words are read. Options are names and values in turn,
//! in any order, each name once at most. No memory is taken.
//!
//! ```text
//! enum Word { Folder, Timeline, Count }                 // impl Kind for Word: which words are of a kind
//! #[derive(Clone, Copy)]
//! enum Command { History, Simulate }
//! const TABLE: Table<'static, Word, Command> = Table {
//!     lead: Some(OptionForm { name: "-D", kind: Word::Folder }),
//!     forms: &[
//!         Form { command: Command::History, name: "history", arguments: &[Word::Timeline], tail: Tail::Nothing },
//!         Form { command: Command::Simulate, name: "simulate", arguments: &[], tail: Tail::Options(&[
//!             OptionForm { name: "--generate", kind: Word::Count },
//!             OptionForm { name: "--stops", kind: Word::Count },
//!         ]) },
//!     ],
//! };
//!
//! let line = read_line(&TABLE, words)?;                 // -D here history 7: history, first 2, after 4
//! match line.command {
//!     Command::History => word_at(words, line.first + 1),                  // a word of the kind Timeline
//!     Command::Simulate => option_value(words, line.past, "--stops"),    // or None, where it is not there
//! }
//! ```
//!
//! Contracts speak of a table as plain data (`plain`, `PlainTable`): a contract cannot name a constant that holds references,
//! so a program writes its table a second time in its specs, and `plain TABLE` computes to that. That names differ, `is_table`,
//! is a test that computes there too. A caller that knows its table gets the shape of a line from `IsRead` by computation, and
//! from the laws: `one_form`, `one_usage`, `arguments_are_of_their_kinds`, `tail_is_past`, `options_have_one_value`,
//! `commands_tell_forms`. They take no time; as lemmas they stand in `proofs/LinesRead.antt`.
//! Stands on `repl_text` for `StopsAt`.
#![tactic(auto)]

mod example;
mod form;
mod kind;
mod laws;
mod lead;
mod line;
mod options;
mod table;
mod words;

pub use kind::Kind;
pub use laws::{
    arguments_are_of_their_kinds, commands_tell_forms, one_form, one_usage, options_have_one_value,
    tail_is_past,
};
pub use line::{Line, read_line};
pub use options::option_value;
pub use table::{Form, OptionForm, Table, Tail};
pub use words::word_at;
