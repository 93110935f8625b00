//! The parts of a printed command. Each function appends one, and takes memory.
ghost use Rattle.std.specs.Prelude.{◌≡◌, ◌++◌, ◌<◌, All, IfOk, decimal};
ghost use Rattle.hex.specs.Hex.{encode_lower};
ghost use Rattle.repl_lsn.specs.Position.{position_text};
ghost use Rattle.repl_names.specs.StandbyList.{IsListing, list_spelling};
ghost use Rattle.repl_token.specs.Token.{quoted};
ghost use Rattle.repl_cmd.specs.Command.{IsTimeline, IsSlotOf};
ghost use Rattle.repl_text.specs.SlotName.{IsSlotName};
ghost use Rattle.repl_cmd.specs.Name.{IsParameterName};
ghost use Rattle.repl_cmd.specs.Printing.{word_if, slot_words, timeline_words, number_word};

use crate::name::{ParameterName, SlotName};
use repl_lsn::{Lsn, Tli};
use repl_names::{StandbyList, print_names};
use repl_token::put_quoted;
use std::alloc::{AllocError, Global};

/// The word, where it stands in the command.
pub(crate) fn put_word_if(out: &mut Vec<u8>, stands: bool, word: &[u8]) -> Result<(), AllocError>
    ensures { IfOk result (λ _. out.new.items ≡ out.old.items ++ word_if stands word.now) }
{
    if stands {
        out.extend_from_slice(word)?;
    }
    Ok(())
}

/// A slot's name, in double quotes.
pub(crate) fn put_slot_name(out: &mut Vec<u8>, name: &SlotName) -> Result<(), AllocError>
    ensures exact { IfOk result (λ _. out.new.items ≡ out.old.items ++ quoted 34 name.now) }
    ensures name { IsSlotName name.now }
{
    put_quoted(out, b'"', name.as_slice())
}

/// A parameter's name, in double quotes.
pub(crate) fn put_parameter(out: &mut Vec<u8>, name: &ParameterName) -> Result<(), AllocError>
    ensures exact { IfOk result (λ _. out.new.items ≡ out.old.items ++ quoted 34 name.now) }
    ensures name { IsParameterName name.now }
{
    put_quoted(out, b'"', name.as_slice())
}

/// The slot of a stream and a space, if there is a slot.
pub(crate) fn put_slot(out: &mut Vec<u8>, slot: &Option<SlotName>) -> Result<(), AllocError>
    ensures exact { IfOk result (λ _. out.new.items ≡ out.old.items ++ slot_words slot.now) }
    ensures slot { IfOk result (λ _. IsSlotOf slot.now) }
{
    if let Some(name) = slot {
        out.extend_from_slice(b"SLOT ")?;
        put_slot_name(out, name)?;
        out.push(b' ')?;
    }
    Ok(())
}

/// A number, in decimal digits.
pub(crate) fn put_decimal(alloc: Global, out: &mut Vec<u8>, number: u32) -> Result<(), AllocError>
    ensures { IfOk result (λ _. out.new.items ≡ out.old.items ++ decimal number) }
{
    let digits = format!(in alloc; "{number}")?;
    out.extend_from_slice(digits.as_bytes())
}

/// A position.
pub(crate) fn put_position(alloc: Global, out: &mut Vec<u8>, at: Lsn) -> Result<(), AllocError>
    ensures { IfOk result (λ _. out.new.items ≡ out.old.items ++ position_text at) }
{
    let text = at.text(alloc)?;
    out.extend_from_slice(text.as_bytes())
}

/// The timeline of a stream, if it is given.
pub(crate) fn put_timeline(
    alloc: Global,
    out: &mut Vec<u8>,
    timeline: Option<Tli>,
) -> Result<(), AllocError>
    ensures exact { IfOk result (λ _. out.new.items ≡ out.old.items ++ timeline_words timeline) }
    ensures timeline { IsTimeline timeline }
{
    match timeline {
        Some(timeline) => {
            out.extend_from_slice(b" TIMELINE ")?;
            put_decimal(alloc, out, timeline.number())
        }
        None => Ok(()),
    }
}

/// A space and the timeline's number, if it is given.
pub(crate) fn put_number(
    alloc: Global,
    out: &mut Vec<u8>,
    timeline: Option<Tli>,
) -> Result<(), AllocError>
    ensures exact { IfOk result (λ _. out.new.items ≡ out.old.items ++ number_word timeline) }
    ensures timeline { IsTimeline timeline }
{
    match timeline {
        Some(timeline) => {
            out.push(b' ')?;
            put_decimal(alloc, out, timeline.number())
        }
        None => Ok(()),
    }
}

/// The bytes as hexadecimal digits, in single quotes. No digit is a quote, so that none is looked for.
pub(crate) fn put_body(alloc: Global, out: &mut Vec<u8>, body: &[u8]) -> Result<(), AllocError>
    ensures exact { IfOk result (λ _. out.new.items ≡ out.old.items ++ quoted 39 (encode_lower body.now)) }
    ensures bytes { All (λ b. b < 256) body.now }
{
    let digits = hex::encode(alloc, body)?;
    out.reserve(digits.len() + 2)?;
    out.push(b'\'')?;
    out.extend_from_slice(digits.as_bytes())?;
    out.push(b'\'')?;
    Ok(())
}

/// The text of a standby list, in single quotes.
pub(crate) fn put_names(
    alloc: Global,
    out: &mut Vec<u8>,
    list: &StandbyList,
) -> Result<(), AllocError>
    ensures exact { IfOk result (λ _. out.new.items ≡ out.old.items ++ quoted 39 (list_spelling list.now)) }
    ensures listing { IfOk result (λ _. IsListing list.now) }
{
    let text = print_names(alloc, list)?;
    put_quoted(out, b'\'', &text)
}
