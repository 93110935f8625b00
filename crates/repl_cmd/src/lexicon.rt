ghost use Rattle.std.specs.Prelude.{◌≡◌};
ghost use Rattle.repl_cmd.specs.Token.{command_class};

use repl_token::{Class, Lexicon};

/// What each byte is in a command.
pub(crate) struct CommandLexicon;

impl Lexicon for CommandLexicon {
    ghost class_of = { command_class };

    fn class(byte: u8) -> Class {
        match byte {
            b' ' | b'\t' | b'\n' | b'\r' => Class::Blank,
            b'a'..=b'z' | b'A'..=b'Z' | b'0'..=b'9' | b'_' | b'/' => Class::Letter,
            b'"' | b'\'' => Class::Quote,
            b'(' | b')' | b',' | b';' | b'=' => Class::Alone,
            _ => Class::Nothing,
        }
    }
}
