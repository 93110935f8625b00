ghost use Rattle.std.specs.Prelude.{◌≡◌};
ghost use Rattle.repl_names.specs.Token.{list_class};

use repl_token::{Class, Lexicon};

/// What each byte is in a standby list.
pub(crate) struct ListLexicon;

impl Lexicon for ListLexicon {
    ghost class_of = { list_class };

    fn class(byte: u8) -> Class {
        match byte {
            b' ' | b'\t'..=b'\r' => Class::Blank,
            b'a'..=b'z' | b'A'..=b'Z' | b'_' | 128.. => Class::Letter,
            b'0'..=b'9' => Class::Digit,
            b'$' => Class::Inner,
            b'"' => Class::Quote,
            b'*' | b',' | b'(' | b')' => Class::Alone,
            _ => Class::Nothing,
        }
    }
}
