ghost use Rattle.std.specs.Prelude.{◌≡◌, ◌⊎◌, ◌<◌, ◌≤◌, true, All, Some, None, Ok, Err, IfOk, IfErr};
ghost use Rattle.std.specs.Char.{is_ascii_digit};
ghost use Rattle.std.specs.Str.Parse.{digits_value};
ghost use Rattle.repl_text.specs.Language.{StopsAt};
ghost use Rattle.repl_names.specs.declared.fault.NamesFault.TheVariants as NamesFault;
ghost use Rattle.repl_names.specs.StandbyList.{Listing, IsListing, Demands};
ghost use Rattle.repl_names.specs.Token.{ReadsListTokens};
ghost use Rattle.repl_names.specs.Grammar.{IsSaid, SaysList, IsListFault};
ghost use Rattle.repl_names.specs.Walk.{said_number, said_names, HaveDigits, IsNumberOf, IsNumberFault, IsFaultOf, IsTooLong};

use crate::fault::NamesFault;
use crate::grammar::{Shape, judge, names_from, shape_of};
use crate::length::spelling_length;
use crate::list::{Method, NUMBER_LIMIT, SPELLING_LIMIT, StandbyList};
use crate::token::{Kind, Token, tokens_of};
use repl_text::Text;
use repl_token::saturating_value;
use std::alloc::Global;

/// The list that the text says (manual, `synchronous_standby_names`).
///
/// The grammar is judged first, over the whole text: `Syntax` and `OpenQuote` name the first token with which
/// no list goes on. Then the number is judged, and last the length of the list's spelling. Takes memory.
pub fn parse_names(alloc: Global, text: &[u8]) -> Result<StandbyList, NamesFault>
    // What is read is what the text says.
    ensures read { IfOk result (λ list. SaysList text.now list) }
    // Each refusal has its cause.
    ensures refused { IfErr result (λ fault. IsListFault text.now fault) }
    // What the text says is read.
    ensures only { (list : Listing) → SaysList text.now list → (result ≡ Ok list) ⊎ (result ≡ Err NamesFault.Memory) }
{
    let tokens = tokens_of(alloc, text)?;
    if let Err(index) = judge(&tokens) {
        return Err(refusal(text, &tokens, index));
    }
    let shape = shape_of(&tokens);
    let number = number_of(&tokens, shape)?;
    let names = names_from(alloc, tokens, shape.names)?;
    listed(shape.method, number, names)
}

/// The refusal of a text whose tokens leave the grammar at the index.
fn refusal(text: &[u8], tokens: &[Token], index: usize) -> NamesFault
    requires reads { ReadsListTokens 0 text.now tokens.now }
    requires stops { StopsAt IsSaid tokens.now index }
    ensures { IsListFault text.now result }
{
    let Some(token) = tokens.get(index) else {
        return NamesFault::Syntax(text.len() as u64);
    };
    let place = token.place as u64;
    match token.kind {
        Kind::Unclosed => NamesFault::OpenQuote(place),
        _ => NamesFault::Syntax(place),
    }
}

/// The number that the tokens of a list say, or 1, or 0 where they are none.
fn number_of(tokens: &[Token], shape: Shape) -> Result<u32, NamesFault>
    requires { HaveDigits (said_number tokens.now shape.number) }
    ensures ok { IfOk result (λ n. IsNumberOf tokens.now (said_number tokens.now shape.number) n) }
    ensures err { IfErr result (λ fault. IsFaultOf (said_number tokens.now shape.number) fault) }
{
    match shape.number.and_then(|index| tokens.get(index)) {
        Some(token) => judged(token),
        None if tokens.is_empty() => Ok(0),
        None => Ok(1),
    }
}

/// The number that the token says, which may be demanded.
fn judged(token: &Token) -> Result<u32, NamesFault>
    requires { All (λ c. is_ascii_digit c ≡ true) token.now.text }
    ensures ok { IfOk result (λ n. (n ≡ digits_value 10 token.now.text) × (0 < n) × (n ≤ NUMBER_LIMIT)) }
    ensures err { IfErr result (λ fault. IsNumberFault token.now fault) }
{
    match saturating_value(token.text.as_slice()) {
        0 => Err(NamesFault::Zero(token.place as u64)),
        value if value > u64::from(NUMBER_LIMIT) => Err(NamesFault::TooLarge(token.place as u64)),
        value => Ok(value as u32),
    }
}

/// The list of these parts, if its spelling is short enough.
fn listed(method: Method, number: u32, names: Vec<Text>) -> Result<StandbyList, NamesFault>
    requires { Demands names.items method number }
    ensures ok { IfOk result (λ list. (list ≡ record { method = method; number = number; names = names.items }) × IsListing list) }
    ensures err { IfErr result (λ fault. IsTooLong (record { method = method; number = number; names = names.items }) fault) }
{
    let have = spelling_length(method, number, &names);
    if have > SPELLING_LIMIT {
        return Err(NamesFault::TooLong { have });
    }
    Ok(StandbyList::of(method, number, names))
}
