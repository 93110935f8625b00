ghost use Rattle.std.specs.Prelude.{◌≡◌, IfOk};
ghost use Rattle.repl_names.specs.Token.{ReadsListTokens, list_token, kind_of, word_kind, sign_kind};

use crate::lexicon::ListLexicon;
use repl_text::Text;
use repl_token::{Kind as LexerKind, Token as LexerToken, next_token};
use std::alloc::{AllocError, Global};

/// What a token of a standby list is.
#[derive(Clone, Copy)]
pub(crate) enum Kind {
    /// A word that is no keyword.
    Word,
    /// The keyword `FIRST`.
    First,
    /// The keyword `ANY`.
    Any,
    Number,
    /// A name in double quotes.
    Quoted,
    Star,
    Comma,
    Opening,
    Closing,
    /// A byte that begins no token, or a name in quotes that holds a zero byte.
    Wrong,
    /// Quotes that do not end.
    Unclosed,
}

/// A token: its kind, the place of its first byte, and the name that it may be.
#[derive(Drop)]
pub(crate) struct Token {
    pub(crate) kind: Kind,
    pub(crate) place: usize,
    pub(crate) text: Text,
}

/// The tokens of a text.
pub(crate) fn tokens_of(alloc: Global, text: &[u8]) -> Result<Vec<Token>, AllocError>
    ensures { IfOk result (λ tokens. ReadsListTokens 0 text.now tokens.items) }
{
    let mut tokens = Vec::new(alloc);
    let mut at = 0;
    while let Some((token, end)) = next_token::<ListLexicon>(alloc, text, at)? {
        tokens.push(list_token(alloc, token)?)?;
        at = end;
    }
    Ok(tokens)
}

/// The token of a list that the lexer's token is. Its bytes are not copied.
fn list_token(alloc: Global, token: LexerToken) -> Result<Token, AllocError>
    ensures { IfOk result (λ own. own ≡ list_token token) }
{
    let LexerToken { kind, place, text } = token;
    match kind_of(kind, &text) {
        Kind::Star => Ok(Token {
            kind: Kind::Star,
            place,
            text: Text::copied(alloc, b"*")?,
        }),
        kind => match Text::new(text) {
            Some(text) => Ok(Token { kind, place, text }),
            None => Ok(Token {
                kind: Kind::Wrong,
                place,
                text: Text::copied(alloc, b"")?,
            }),
        },
    }
}

/// What a token of the lexer is to a list.
fn kind_of(kind: LexerKind, text: &[u8]) -> Kind
    ensures { result ≡ kind_of kind text.now }
{
    match kind {
        LexerKind::Word => word_kind(text),
        LexerKind::Number => Kind::Number,
        LexerKind::Alone(sign) => sign_kind(sign),
        LexerKind::Quoted(_) => Kind::Quoted,
        LexerKind::Wrong => Kind::Wrong,
        LexerKind::Unclosed(_) => Kind::Unclosed,
    }
}

/// The kind of a word: a keyword in any case, or no keyword.
fn word_kind(word: &[u8]) -> Kind
    ensures { result ≡ word_kind word.now }
{
    if word.eq_ignore_ascii_case(b"first") {
        Kind::First
    } else if word.eq_ignore_ascii_case(b"any") {
        Kind::Any
    } else {
        Kind::Word
    }
}

/// The kind of a byte that is a token of its own.
fn sign_kind(sign: u8) -> Kind
    ensures { result ≡ sign_kind sign }
{
    match sign {
        b'*' => Kind::Star,
        b',' => Kind::Comma,
        b'(' => Kind::Opening,
        b')' => Kind::Closing,
        _ => Kind::Wrong,
    }
}
