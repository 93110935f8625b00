ghost use Rattle.std.specs.Prelude.{◌≡◌};
ghost use Rattle.repl_token.specs.Class.{is_blank, is_digit, is_inside};

/// What a byte is to a lexer.
#[derive(Clone, Copy, Debug, PartialEq, Eq)]
pub enum Class {
    /// It stands between tokens.
    Blank,
    /// It is a token of its own.
    Alone,
    /// It begins a text, which ends at the next such byte. Two of them in the text are one byte of it.
    Quote,
    /// It begins a word, or goes on with one.
    Letter,
    /// It begins a number, or goes on with a number or a word.
    Digit,
    /// It goes on with a word, and begins no token.
    Inner,
    /// It stands only in quotes.
    Nothing,
}

impl Class {
    /// Whether it stands between tokens.
    pub fn is_blank(self) -> bool
        ensures { result ≡ is_blank self }
    {
        matches!(self, Class::Blank)
    }

    /// Whether it goes on with a number.
    pub fn is_digit(self) -> bool
        ensures { result ≡ is_digit self }
    {
        matches!(self, Class::Digit)
    }

    /// Whether it goes on with a word.
    pub fn is_inside(self) -> bool
        ensures { result ≡ is_inside self }
    {
        matches!(self, Class::Letter | Class::Digit | Class::Inner)
    }
}
