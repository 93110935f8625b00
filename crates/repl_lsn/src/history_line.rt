//! One line of a history's text.
ghost use Rattle.std.specs.Prelude.{◌≡◌, ◌≢◌, ℕ, ◌-◌, ◌^◌, ◌⊎◌, ◌↔◌, true, List, min, IsTrue, IfOk, IfErr, MatchOption, All};
ghost use Rattle.std.specs.Char.{is_ascii_digit};
ghost use Rattle.std.specs.Str.Parse.{digits_value};
ghost use Rattle.repl_lsn.specs.declared.fault.HistoryFault.TheVariants as HistoryFault;
ghost use Rattle.repl_lsn.specs.declared.history.Part.{Part};
ghost use Rattle.repl_lsn.specs.History.{IsIgnored, IsApart, HasNumber, HasSwitch, IsReason, SaysPart, IsLineFault};

use crate::fault::HistoryFault;
use crate::history::{Line, Part};
use crate::position::Lsn;
use crate::timeline::Tli;
use crate::words::{after_blanks, before_blanks, split_word};
use std::alloc::{AllocError, Global};

/// The part that the line says, or `None` where it is blank or a comment. `place` is its number, from 1. Takes
/// memory for the reason.
pub(crate) fn parse_line(
    alloc: Global,
    line: &[u8],
    place: u64,
) -> Result<Option<Part>, HistoryFault>
    requires { All (λ c. c ≢ 10) line.now }
    ensures read { IfOk result (λ said. MatchOption said (IsIgnored line.now) (λ part. SaysPart line.now part)) }
    // What is wrong with the line by itself is so whatever was before it.
    ensures refused { IfErr result (λ fault. (fault ≡ HistoryFault.Memory) ⊎ ((own : ℕ) (before : List Part) → IsLineFault own before line.now place fault)) }
{
    if is_ignored(line) {
        return Ok(None);
    }
    let Some(number) = number_of(line) else {
        return Err(HistoryFault::NotNumber(place));
    };
    let (tli, past) = number;
    let Some(found) = switch_of(past) else {
        return Err(HistoryFault::NotSwitch(place));
    };
    let (switch, rest) = found;
    let reason = reason_of(alloc, rest)?;
    Ok(Some(Part {
        tli,
        switch,
        reason,
    }))
}

/// Whether the line is blank or a comment.
fn is_ignored(line: &[u8]) -> bool
    ensures { IsTrue result ↔ IsIgnored line.now }
{
    match after_blanks(line).first() {
        None => true,
        Some(first) => *first == b'#',
    }
}

/// The number of a timeline with which the line begins, and what is after it.
fn number_of(line: &[u8]) -> Option<(Tli, &[u8])>
    ensures { MatchOption result ((n : ℕ) (past : List ℕ) → ¬ HasNumber line.now n past) (λ found. HasNumber line.now found.0 found.1.now) }
{
    let (word, past) = split_word(after_blanks(line));
    if word.is_empty() {
        return None;
    }
    let Ok(number) = u32::try_from(decimal_value(word)?) else {
        return None;
    };
    Some((Tli::new(number)?, past))
}

/// The position with which the bytes go on after blanks, and what is after it.
fn switch_of(bytes: &[u8]) -> Option<(Lsn, &[u8])>
    requires { IsApart bytes.now }
    ensures { MatchOption result ((switch : ℕ) (past : List ℕ) → ¬ HasSwitch bytes.now switch past) (λ found. HasSwitch bytes.now found.0 found.1.now) }
{
    let (word, past) = split_word(after_blanks(bytes));
    match Lsn::parse(word) {
        Ok(switch) => Some((switch, past)),
        Err(_) => None,
    }
}

/// A copy of the bytes without the blanks at their ends.
fn reason_of(alloc: Global, bytes: &[u8]) -> Result<Line, AllocError>
    requires { All (λ c. c ≢ 10) bytes.now }
    ensures { IfOk result (λ reason. IsReason bytes.now reason) }
{
    Line::copied(alloc, before_blanks(after_blanks(bytes)))
}

/// The number that the digits write, or 2^64 - 1 where it is larger. `None` where one of the bytes is no digit.
fn decimal_value(digits: &[u8]) -> Option<u64>
    ensures { MatchOption result
        (¬ All (λ c. is_ascii_digit c ≡ true) digits.now)
        (λ value. All (λ c. is_ascii_digit c ≡ true) digits.now × (value ≡ min (digits_value 10 digits.now) (2 ^ 64 - 1))) }
{
    let mut value: u64 = 0;
    for digit in digits {
        if !digit.is_ascii_digit() {
            return None;
        }
        value = value
            .saturating_mul(10)
            .saturating_add(u64::from(*digit - b'0'));
    }
    Some(value)
}
