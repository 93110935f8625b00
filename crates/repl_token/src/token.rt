ghost use Rattle.std.specs.Prelude.{◌≡◌, ◌<◌, ◌≤◌, false, [], length, take, drop, slice_index, IfSome, IfOk, MatchOption};
ghost use Rattle.repl_token.specs.declared.class.Class.TheVariants as Class;
ghost use Rattle.repl_token.specs.Class.{is_blank};
ghost use Rattle.repl_token.specs.Token.{Reads, IsNext, IsToken};

use crate::class::Class;
use crate::lexicon::Lexicon;
use crate::quotes::unquoted;
use crate::run::{blanks, digits, word_bytes};
use std::alloc::{AllocError, Global};
use std::marker::Model;

/// What a token is.
#[derive(Clone, Copy, Debug, PartialEq, Eq)]
pub enum Kind {
    /// A letter, and the letters, digits and inner bytes after it.
    Word,
    /// Digits.
    Number,
    /// This byte, which is a token of its own.
    Alone(u8),
    /// A text in this quote.
    Quoted(u8),
    /// A byte that begins no token. Nothing is read after it.
    Wrong,
    /// This quote, and what stands after it, which it never closes.
    Unclosed(u8),
}

/// A token: its kind, the place of its first byte, and what it says: the bytes of a word or a number, or the text that
/// stands in the quotes.
#[derive(Debug, Drop)]
pub struct Token {
    pub kind: Kind,
    /// In bytes, from the text's start.
    pub place: usize,
    pub text: Vec<u8>,
}

impl Model for Token {
    ghost use Rattle.repl_token.specs.Token.{RawToken};

    ghost Value = { RawToken };

    ghost view = { λ t. record { kind = t.kind; place = t.place; text = t.text.items } };
}

/// The first token from this place on, and the place after it, or `None` where only blanks are left. Takes memory for
/// what the token says.
pub fn next_token<L: Lexicon>(
    alloc: Global,
    text: &[u8],
    at: usize,
) -> Result<Option<(Token, usize)>, AllocError>
    requires { at ≤ length text.now }
    ensures within { IfOk result (λ next. IfSome next (λ found. (at < found.1) × (found.1 ≤ length text.now))) }
    ensures read { IfOk result (λ next. MatchOption next (Reads L.class_of at (drop at text.now) []) (λ found. IsNext L.class_of at (drop at text.now) found.0 (drop found.1 text.now))) }
{
    let place = at + blanks::<L>(&text[at..]);
    let rest = &text[place..];
    if rest.is_empty() {
        return Ok(None);
    }
    let (token, size) = token_at::<L>(alloc, rest, place)?;
    Ok(Some((token, place + size)))
}

/// The token with which `rest` begins, which stands at this place and is not blank, and the token's length.
fn token_at<L: Lexicon>(
    alloc: Global,
    rest: &[u8],
    place: usize,
) -> Result<(Token, usize), AllocError>
    requires some { 0 < length rest.now }
    requires no_blank { is_blank (L.class_of (slice_index rest.now 0)) ≡ false }
    ensures size { IfOk result (λ found. (0 < found.1) × (found.1 ≤ length rest.now)) }
    ensures place { IfOk result (λ found. found.0.place ≡ place) }
    ensures is { IfOk result (λ found. IsToken L.class_of found.0.kind found.0.text (take found.1 rest.now) (drop found.1 rest.now)) }
{
    let first = rest[0];
    match L::class(first) {
        Class::Letter => {
            let size = word_bytes::<L>(rest);
            Ok((copied(alloc, Kind::Word, place, &rest[..size])?, size))
        }
        Class::Digit => {
            let size = digits::<L>(rest);
            Ok((copied(alloc, Kind::Number, place, &rest[..size])?, size))
        }
        Class::Alone => Ok((bare(alloc, Kind::Alone(first), place), 1)),
        Class::Quote => quoted::<L>(alloc, first, rest, place),
        Class::Blank | Class::Inner | Class::Nothing => Ok((
            bare(alloc, Kind::Wrong, place),
            rest.len(),
        )),
    }
}

/// A token that says no text.
fn bare(alloc: Global, kind: Kind, place: usize) -> Token
    ensures { (result.kind ≡ kind) × (result.place ≡ place) × (result.text ≡ []) }
{
    Token {
        kind,
        place,
        text: Vec::new(alloc),
    }
}

/// A token that says a copy of these bytes.
fn copied(alloc: Global, kind: Kind, place: usize, spelled: &[u8]) -> Result<Token, AllocError>
    ensures { IfOk result (λ token. (token.kind ≡ kind) × (token.place ≡ place) × (token.text ≡ spelled.now)) }
{
    let text = Vec::from_slice(alloc, spelled)?;
    Ok(Token { kind, place, text })
}

/// The text in quotes with which `rest` begins, and its length. Quotes that do not end take all of `rest`.
fn quoted<L: Lexicon>(
    alloc: Global,
    quote: u8,
    rest: &[u8],
    place: usize,
) -> Result<(Token, usize), AllocError>
    requires some { 0 < length rest.now }
    requires begins { slice_index rest.now 0 ≡ quote }
    requires quote { L.class_of quote ≡ Class.Quote }
    ensures size { IfOk result (λ found. (0 < found.1) × (found.1 ≤ length rest.now)) }
    ensures place { IfOk result (λ found. found.0.place ≡ place) }
    ensures is { IfOk result (λ found. IsToken L.class_of found.0.kind found.0.text (take found.1 rest.now) (drop found.1 rest.now)) }
{
    match unquoted(alloc, rest, quote)? {
        Some((text, size)) => {
            let kind = Kind::Quoted(quote);
            Ok((Token { kind, place, text }, size))
        }
        None => Ok((bare(alloc, Kind::Unclosed(quote), place), rest.len())),
    }
}
