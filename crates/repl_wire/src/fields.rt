ghost use Rattle.std.specs.Prelude.{◌≡◌, ◌≤◌, List, length, take, drop};
ghost use Rattle.repl_message.specs.Decoding.{string_at};
ghost use Rattle.repl_wire.specs.Judging.{Gives, pairs_at, parameters_of, text_of, nothing_of, bytes_of, two_numbers_of};

use bytes::Bytes;
use repl_message::{Pair, Pairs};
use repl_text::Text;
use std::alloc::{AllocError, AllocFailed, Global};

/// Why a body was not read.
#[derive(Drop)]
pub(crate) enum FieldFault {
    /// No body goes on with the field before which so many bytes of the body are left.
    Left(usize),
    Memory,
}

impl From<AllocError> for FieldFault {
    ghost use Rattle.repl_wire.specs.declared.fields.FieldFault.TheVariants.{Memory};

    ghost from_gives = { λ _ e. e ≡ Memory };

    fn from(_error: AllocError) -> FieldFault {
        FieldFault::Memory
    }
}

impl<T: Drop> From<AllocFailed<T>> for FieldFault {
    ghost use Rattle.repl_wire.specs.declared.fields.FieldFault.TheVariants.{Memory};

    ghost from_gives = { λ _ e. e ≡ Memory };

    fn from(_error: AllocFailed<T>) -> FieldFault {
        FieldFault::Memory
    }
}

/// The string at the front of a body, and the bytes after its zero byte.
#[tactic(auto, unfolding(repl_message::specs::Decoding::string_at))]
pub(crate) fn string_of(alloc: Global, bytes: &[u8]) -> Result<(Text, &[u8]), FieldFault>
    ensures { Gives (λ x. (x.0, x.1.now)) result (string_at bytes.now) }
{
    match bytes.iter().position(|b| *b == 0) {
        None => Err(FieldFault::Left(bytes.len())),
        Some(end) => {
            let text = Text::copied(alloc, &bytes[..end])?;
            Ok((text, &bytes[end + 1..]))
        }
    }
}

/// The pairs at the front of a body, and the bytes after the zero byte that ends them.
#[tactic(auto, unfolding(crate::specs::Judging::pairs_at))]
fn pairs_of(alloc: Global, body: &[u8]) -> Result<(Vec<Pair>, &[u8]), FieldFault>
    ensures { Gives (λ x. (x.0.items, x.1.now)) result (pairs_at (length body.now) body.now) }
{
    let mut pairs = Vec::new(alloc);
    let mut rest = body;
    for _ in 0..body.len() {
        let Some((first, after)) = rest.split_first() else {
            return Err(FieldFault::Left(0));
        };
        if *first == 0 {
            return Ok((pairs, after));
        }
        let (name, after) = string_of(alloc, rest)?;
        let (value, after) = string_of(alloc, after)?;
        pairs.push(Pair { name, value })?;
        rest = after;
    }
    Err(FieldFault::Left(rest.len()))
}

/// The parameters that a startup packet's body spells after its code.
#[tactic(auto, unfolding(crate::specs::Judging::parameters_of))]
pub(crate) fn read_parameters(alloc: Global, body: &[u8]) -> Result<Pairs, FieldFault>
    ensures { Gives (λ x. x) result (parameters_of body.now) }
{
    let (pairs, rest) = pairs_of(alloc, body)?;
    if !rest.is_empty() {
        return Err(FieldFault::Left(rest.len()));
    }
    match Pairs::new(pairs) {
        Some(pairs) => Ok(pairs),
        None => unreachable!(),
    }
}

/// A body of one string.
#[tactic(auto, unfolding(crate::specs::Judging::text_of))]
pub(crate) fn read_text(alloc: Global, body: &[u8]) -> Result<Text, FieldFault>
    ensures { Gives (λ x. x) result (text_of body.now) }
{
    let (text, rest) = string_of(alloc, body)?;
    if !rest.is_empty() {
        return Err(FieldFault::Left(rest.len()));
    }
    Ok(text)
}

/// A body of no bytes.
#[tactic(auto, unfolding(crate::specs::Judging::nothing_of))]
pub(crate) fn read_nothing(body: &[u8]) -> Result<(), FieldFault>
    ensures { Gives (λ x. x) result (nothing_of body.now) }
{
    if body.is_empty() {
        Ok(())
    } else {
        Err(FieldFault::Left(body.len()))
    }
}

/// A body of bytes, as many as there are.
#[tactic(auto, unfolding(crate::specs::Judging::bytes_of))]
pub(crate) fn read_bytes(alloc: Global, body: &[u8]) -> Result<Bytes, FieldFault>
    ensures { Gives (λ x. x) result (bytes_of body.now) }
{
    Ok(Bytes::copy_from_slice(alloc, body)?)
}

/// A body of two numbers.
#[tactic(auto, unfolding(crate::specs::Judging::two_numbers_of))]
pub(crate) fn read_two_numbers(body: &[u8]) -> Result<(u32, u32), FieldFault>
    ensures { Gives (λ x. x) result (two_numbers_of body.now) }
{
    match body {
        [a, b, c, d, e, f, g, h] => Ok((
            u32::from_be_bytes([*a, *b, *c, *d]),
            u32::from_be_bytes([*e, *f, *g, *h]),
        )),
        _ => Err(FieldFault::Left(body.len())),
    }
}
