//! Names of the files that stand beside whole segments: histories, and segments that are not whole.
ghost use Rattle.std.specs.Prelude.{◌≡◌, ℕ, Ok, IfOk, IfErr, string_bytes, take, drop};
ghost use Rattle.repl_lsn.specs.Segment.{Fits, NamesHistory, IsHistoryNameFault, history_name, partial_name};
ghost use Rattle.repl_lsn.specs.FileName.{NamesPartial, IsPartialNameFault};

use crate::position::PlaceFault;
use crate::segment::{
    NAME_LENGTH, NUMBER_DIGITS, SegNo, SegSize, number_at, parse_seg_name, seg_name,
};
use crate::timeline::Tli;
use std::alloc::{AllocError, Global};

/// What stands after the timeline in the name of a history.
const HISTORY_SUFFIX: &[u8] = b".history";

/// What stands after the name of a segment in that of one that is not whole.
const PARTIAL_SUFFIX: &[u8] = b".partial";

/// The name of the file with the timeline's history. Takes memory for it.
pub fn history_name(alloc: Global, tli: Tli) -> Result<String, AllocError>
    ensures { IfOk result (λ name. string_bytes name ≡ history_name tli) }
{
    let timeline = tli.0;
    format!(in alloc; "{timeline:08X}.history")
}

/// The timeline whose history the name of a file says.
///
/// A digit that is wrong or missing is refused at its place, a timeline 0 at 0, and anything but `.history` after the
/// digits at 8.
pub fn parse_history_name(text: &[u8]) -> Result<Tli, PlaceFault>
    // What is read is what the text names.
    ensures read { IfOk result (λ tli. NamesHistory text.now tli) }
    // What the text names is read.
    ensures only { (tli : ℕ) → NamesHistory text.now tli → result ≡ Ok tli }
    // Each refusal has its cause, and is told where it has.
    ensures refused { IfErr result (λ fault. IsHistoryNameFault text.now fault.place) }
{
    let timeline = number_at(text, 0)?;
    let tli = Tli::new(timeline).ok_or(PlaceFault { place: 0 })?;
    if &text[NUMBER_DIGITS..] != HISTORY_SUFFIX {
        return Err(PlaceFault {
            place: NUMBER_DIGITS,
        });
    }
    Ok(tli)
}

/// The name of the file with the beginning of a segment, as far as a timeline that was left in it goes: the segment's
/// name and `.partial`. Takes memory for it.
pub fn partial_name(
    alloc: Global,
    tli: Tli,
    seg: SegNo,
    size: SegSize,
) -> Result<String, AllocError>
    requires { Fits size seg }
    ensures { IfOk result (λ name. string_bytes name ≡ partial_name size tli seg) }
{
    let name = seg_name(alloc, tli, seg, size)?;
    format!(in alloc; "{name}.partial")
}

/// The timeline and the segment that the name of a file with the beginning of a segment says, where segments are so large.
///
/// The first 24 bytes are judged as `parse_seg_name` judges them, and anything but `.partial` after them is refused at 24.
pub fn parse_partial_name(text: &[u8], size: SegSize) -> Result<(Tli, SegNo), PlaceFault>
    // What is read is what the text names.
    ensures read { IfOk result (λ found. NamesPartial size text.now found.0 found.1) }
    // What the text names is read.
    ensures only { (tli seg : ℕ) → NamesPartial size text.now tli seg → result ≡ Ok (tli, seg) }
    // Each refusal has its cause, and is told where it has.
    ensures refused { IfErr result (λ fault. IsPartialNameFault size text.now fault.place) }
{
    let (front, past) = split_name(text);
    let named = parse_seg_name(front, size)?;
    if past != PARTIAL_SUFFIX {
        return Err(PlaceFault { place: NAME_LENGTH });
    }
    Ok(named)
}

/// As many bytes as the name of a segment has, or all where there are fewer, and the rest.
fn split_name(text: &[u8]) -> (&[u8], &[u8])
    ensures front { result.0.now ≡ take 24 text.now }
    ensures past { result.1.now ≡ drop 24 text.now }
{
    text.split_at(text.len().min(NAME_LENGTH))
}
