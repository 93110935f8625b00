ghost use Rattle.std.specs.Prelude.{◌≡◌, ℕ};
ghost use Rattle.repl_token.specs.declared.class.Class.{Class};

use crate::class::Class;

/// What each byte is in a language.
pub trait Lexicon {
    /// The class of each byte.
    ghost class_of: { ℕ → Class };

    /// What the byte is.
    fn class(byte: u8) -> Class
        ensures { result ≡ class_of byte };
}
