ghost use Rattle.std.specs.Prelude.{◌≡◌, ◌==◌};
ghost use Rattle.std.specs.List.{list_any};
ghost use Rattle.repl_cmd.specs.Token.{command_token, kind_of, run_kind, sign_kind, quoted_kind};

use repl_token::{Kind as LexerKind, Token as LexerToken};
use std::marker::Model;

/// What a token of a command is.
#[derive(Clone, Copy, PartialEq)]
pub(crate) enum Kind {
    /// Letters, digits and underscores: a keyword, a name, a number or a value.
    Word,
    /// The same with slashes in it, of which positions are made.
    Position,
    /// A name in double quotes.
    Name,
    /// A text in single quotes.
    Text,
    Opening,
    Closing,
    Comma,
    Semicolon,
    Equals,
    /// A byte that begins no token, or quotes that do not end.
    Wrong,
}

/// A token: its kind, the place of its first byte, and what it says, without its quotes.
#[derive(Drop)]
pub(crate) struct Token {
    pub(crate) kind: Kind,
    pub(crate) place: usize,
    pub(crate) text: Vec<u8>,
}

impl Model for Token {
    ghost use Rattle.repl_cmd.specs.Token.{Lexeme};

    ghost Value = { Lexeme };

    ghost view = { λ t. record { kind = t.kind; place = t.place; text = t.text.items } };
}

/// The token of a command that the lexer's token is. Its bytes are not copied.
pub(crate) fn command_token(token: LexerToken) -> Token
    ensures { result ≡ command_token token }
{
    let LexerToken { kind, place, text } = token;
    let kind = kind_of(kind, &text);
    Token { kind, place, text }
}

/// What a token of the lexer is to a command.
fn kind_of(kind: LexerKind, text: &[u8]) -> Kind
    ensures { result ≡ kind_of kind text.now }
{
    match kind {
        LexerKind::Word | LexerKind::Number => run_kind(text),
        LexerKind::Alone(sign) => sign_kind(sign),
        LexerKind::Quoted(quote) => quoted_kind(quote),
        LexerKind::Wrong | LexerKind::Unclosed(_) => Kind::Wrong,
    }
}

/// The kind of a run: it is made for a position exactly where a slash stands in it.
fn run_kind(run: &[u8]) -> Kind
    ensures { result ≡ run_kind run.now }
{
    if holds_slash(run) {
        Kind::Position
    } else {
        Kind::Word
    }
}

/// Whether a slash stands in it.
fn holds_slash(run: &[u8]) -> bool
    ensures { result ≡ list_any (λ c. c == 47) run.now }
{
    run.iter().any(|c| *c == b'/')
}

/// The kind of a byte that is a token of its own.
fn sign_kind(sign: u8) -> Kind
    ensures { result ≡ sign_kind sign }
{
    match sign {
        b'(' => Kind::Opening,
        b')' => Kind::Closing,
        b',' => Kind::Comma,
        b';' => Kind::Semicolon,
        b'=' => Kind::Equals,
        _ => Kind::Wrong,
    }
}

/// The kind of a text in this quote.
fn quoted_kind(quote: u8) -> Kind
    ensures { result ≡ quoted_kind quote }
{
    if quote == b'"' {
        Kind::Name
    } else {
        Kind::Text
    }
}
