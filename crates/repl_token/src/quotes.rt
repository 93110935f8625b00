//! Texts in quotes.
ghost use Rattle.std.specs.Prelude.{◌≡◌, ◌<◌, ◌≤◌, ◌++◌, length, take, drop, slice_index, IfSome, IfOk, MatchOption, ◌==◌, position};
ghost use Rattle.repl_token.specs.Token.{IsQuoted, IsUnclosed, quoted};

use std::alloc::{AllocError, Global};

/// The text in quotes with which `rest` begins, and how long its spelling is, or `None` where the quotes do not end.
/// Two quotes in it are one byte of the text.
pub(crate) fn unquoted(
    alloc: Global,
    rest: &[u8],
    quote: u8,
) -> Result<Option<(Vec<u8>, usize)>, AllocError>
    requires some { 0 < length rest.now }
    requires begins { slice_index rest.now 0 ≡ quote }
    ensures size { IfOk result (λ read. IfSome read (λ found. (0 < found.1) × (found.1 ≤ length rest.now))) }
    ensures is { IfOk result (λ read. MatchOption read (IsUnclosed quote rest.now) (λ found. IsQuoted quote found.0.items (take found.1 rest.now) (drop found.1 rest.now))) }
{
    let mut text = Vec::new(alloc);
    let mut from = 1;
    while let Some(size) = first_of(&rest[from..], quote) {
        let end = from + size;
        text.extend_from_slice(&rest[from..end])?;
        if rest.get(end + 1) != Some(&quote) {
            return Ok(Some((text, end + 1)));
        }
        text.push(quote)?;
        from = end + 2;
    }
    Ok(None)
}

/// The place of the first byte that is this one.
fn first_of(text: &[u8], byte: u8) -> Option<usize>
    ensures { result ≡ position (λ c. c == byte) text.now }
{
    text.iter().position(|c| *c == byte)
}

/// Appends the text in quotes, with each quote in it twice. Takes memory.
pub fn put_quoted(out: &mut Vec<u8>, quote: u8, text: &[u8]) -> Result<(), AllocError>
    ensures { IfOk result (λ _. out.new.items ≡ out.old.items ++ quoted quote text.now) }
{
    out.reserve(text.len() + 2)?;
    out.push(quote)?;
    let mut rest = text;
    while let Some(place) = first_of(rest, quote) {
        out.extend_from_slice(&rest[..place + 1])?;
        out.push(quote)?;
        rest = &rest[place + 1..];
    }
    out.extend_from_slice(rest)?;
    out.push(quote)?;
    Ok(())
}
