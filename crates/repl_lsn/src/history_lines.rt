//! Histories as texts.
ghost use Rattle.std.specs.Prelude.{◌≡◌, ℕ, ◌⊎◌, ◌^◌, ◌-◌, ◌<◌, ◌≤◌, min, List, [], ◌∷◌, ◌++◌, length, decimal, string_bytes, Ok, Err, IfOk, IfErr, OnOk, MatchOption, Some, None};
ghost use Rattle.repl_lsn.specs.declared.fault.HistoryFault.TheVariants as HistoryFault;
ghost use Rattle.repl_lsn.specs.declared.history.TheConstants.{HISTORY_LIMIT};
ghost use Rattle.repl_lsn.specs.History.{Path, InOrder, SaysPart, SaysHistory, IsLineFault, BreaksAt, IsHistoryFault, canonical, last_number, last_switch};
ghost use Rattle.repl_lsn.specs.Between.{AreBetween, LiesOutside, IsFaultBetween};
ghost use Rattle.repl_lsn.specs.Position.{Spells, position_text};

use crate::fault::HistoryFault;
use crate::history::{HISTORY_LIMIT, History, Part, Parts};
use crate::history_line::parse_line;
use crate::position::Lsn;
use crate::timeline::Tli;
use crate::words::split_line;
use std::alloc::{AllocError, Global};

/// The history of timeline `own` that the text says (PostgreSQL 17 manual, section "Timelines"): a line for each
/// timeline before it, with its number, the position at which it was left, and a reason.
///
/// The first wrong line decides, and of it the number, the switch point, the number beside the one before and beside
/// `own`, and the switch point beside the one before, in this order. Takes memory.
pub fn parse_history(alloc: Global, own: Tli, text: &[u8]) -> Result<History, HistoryFault>
    // What is read is what the text says.
    ensures read { IfOk result (λ history. SaysHistory text.now history × (history.own ≡ own)) }
    // Each refusal has its cause.
    ensures refused { IfErr result (λ fault. IsHistoryFault own text.now fault) }
    // What the text says is read.
    ensures only { (path : Path) → path.own ≡ own → SaysHistory text.now path → (result ≡ Ok path) ⊎ (result ≡ Err HistoryFault.Memory) }
{
    let size = text.len() as u64;
    if size > HISTORY_LIMIT {
        return Err(HistoryFault::TooLong { have: size });
    }
    let said = parse_parents(alloc, own, text, Lsn(0), Lsn(u64::MAX))?;
    Ok(History::of(own, Parts::new(said.parents)))
}

/// The history of timeline `own` that the text says, of a log that goes from `least` to `most`: each switch point lies
/// between these two, or is one of them.
///
/// The faults of the text come first, as `parse_history` tells them. Then the first line whose switch point lies outside
/// is refused as `NotSwitch`. Takes memory.
pub fn parse_history_between(
    alloc: Global,
    own: Tli,
    text: &[u8],
    least: Lsn,
    most: Lsn,
) -> Result<History, HistoryFault>
    // What is read is what the text says, and lies within the log.
    ensures read { IfOk result (λ history. SaysHistory text.now history × (history.own ≡ own) × AreBetween least most history.parents) }
    // Each refusal has its cause.
    ensures refused { IfErr result (λ fault. IsFaultBetween own text.now least most fault) }
    // What the text says is read where it lies within the log,
    ensures only { (path : Path) → path.own ≡ own → SaysHistory text.now path → AreBetween least most path.parents
        → (result ≡ Ok path) ⊎ (result ≡ Err HistoryFault.Memory) }
    // and where it does not, the first line that lies outside is told.
    ensures outside { (path : Path) (at : ℕ) → path.own ≡ own → SaysHistory text.now path → LiesOutside text.now least most at
        → (result ≡ Err (HistoryFault.NotSwitch at)) ⊎ (result ≡ Err HistoryFault.Memory) }
{
    let size = text.len() as u64;
    if size > HISTORY_LIMIT {
        return Err(HistoryFault::TooLong { have: size });
    }
    let said = parse_parents(alloc, own, text, least, most)?;
    if let Some(place) = said.outside {
        return Err(HistoryFault::NotSwitch(place));
    }
    Ok(History::of(own, Parts::new(said.parents)))
}

/// What the lines of a text say: the timelines, and the first line whose switch point lies outside a log.
#[derive(Drop)]
struct Said {
    parents: Vec<Part>,
    outside: Option<u64>,
}

/// The timelines that the text's lines say, and the first of these lines whose switch point is below `least` or above
/// `most`.
fn parse_parents(
    alloc: Global,
    own: Tli,
    text: &[u8],
    least: Lsn,
    most: Lsn,
) -> Result<Said, HistoryFault>
    requires { length text.now ≤ HISTORY_LIMIT }
    ensures read { IfOk result (λ said. SaysHistory text.now (record { own = own; parents = said.parents.items })) }
    ensures outside { IfOk result (λ said. MatchOption said.outside (AreBetween least most said.parents.items) (λ at. LiesOutside text.now least most at)) }
    ensures refused { IfErr result (λ fault. (fault ≡ HistoryFault.Memory) ⊎ BreaksAt own text.now fault) }
{
    let mut parents = Vec::new(alloc);
    let mut outside = None;
    let mut rest = text;
    let mut place = 0;
    while !rest.is_empty() {
        let (line, past) = split_line(rest);
        place += 1;
        if let Some(part) = parse_line(alloc, line, place)? {
            check_order(own, &parents, &part, place)?;
            outside = first_outside(outside, part.switch, least, most, place);
            parents.push(part)?;
        }
        rest = past;
    }
    Ok(Said { parents, outside })
}

/// The first line whose switch point lies outside, where the line at `place` has this one.
fn first_outside(before: Option<u64>, switch: Lsn, least: Lsn, most: Lsn, place: u64) -> Option<u64>
    ensures { MatchOption result
        ((before ≡ None) × (least ≤ switch) × (switch ≤ most))
        (λ at. (before ≡ Some at) ⊎ ((before ≡ None) × (at ≡ place) × ¬ ((least ≤ switch) × (switch ≤ most)))) }
{
    if before.is_some() || (least <= switch && switch <= most) {
        before
    } else {
        Some(place)
    }
}

/// Whether the part goes on with those before it, and stays below the own one. `place` is its line's number.
fn check_order(own: Tli, before: &[Part], part: &Part, place: u64) -> Result<(), HistoryFault>
    requires { InOrder own before.now }
    ensures in_order { OnOk result (InOrder own (before.now ++ part.now ∷ [])) }
    ensures refused { IfErr result (λ fault. (line : List ℕ) → SaysPart line part.now → IsLineFault own before.now line place fault) }
{
    let (number, switch) = last_of(before);
    if part.tli.number() <= number {
        return Err(HistoryFault::NotIncreasing(place));
    }
    if own <= part.tli {
        return Err(HistoryFault::NotBelowOwn(place));
    }
    if part.switch < switch {
        return Err(HistoryFault::SwitchFalls(place));
    }
    Ok(())
}

/// The number and the switch point of the last part, or zeros where there is none.
fn last_of(parts: &[Part]) -> (u32, Lsn)
    ensures number { result.0 ≡ last_number parts.now }
    ensures switch { result.1 ≡ last_switch parts.now }
{
    match parts.last() {
        None => (0, Lsn(0)),
        Some(last) => (last.tli.number(), last.switch),
    }
}

/// The one canonical text of the history, which is read back as it: a line each with the number, a tab, the position,
/// a tab, the reason and a line feed. Where that has more than 65,536 bytes it is TooLong. Takes memory.
pub fn history_text(alloc: Global, history: &History) -> Result<Vec<u8>, HistoryFault>
    ensures exact { IfOk result (λ text. text.items ≡ canonical history.now) }
    ensures read_back { IfOk result (λ text. SaysHistory text.items history.now) }
    // It is too long exactly where the text is above the limit.
    ensures within { IfOk result (λ text. length (canonical history.now) ≤ HISTORY_LIMIT) }
    ensures refused { IfErr result (λ fault. (fault ≡ HistoryFault.Memory) ⊎
        ((HISTORY_LIMIT < length (canonical history.now)) × (fault ≡ HistoryFault.TooLong (min (length (canonical history.now)) (2 ^ 64 - 1))))) }
{
    let mut text = Vec::new(alloc);
    let mut have: u64 = 0;
    for part in history.parents().as_slice() {
        let line = line_head(alloc, part)?;
        let head = line.as_bytes();
        let reason = part.reason.as_slice();
        have = have
            .saturating_add(head.len() as u64)
            .saturating_add(reason.len() as u64)
            .saturating_add(1);
        // A text that is too long is measured to its end, and no more of it is kept.
        if have <= HISTORY_LIMIT {
            push_line(&mut text, head, reason)?;
        }
    }
    if have > HISTORY_LIMIT {
        return Err(HistoryFault::TooLong { have });
    }
    Ok(text)
}

/// Appends a line from its head and its reason. Where there is no memory for it, some bytes may be added.
fn push_line(text: &mut Vec<u8>, head: &[u8], reason: &[u8]) -> Result<(), AllocError>
    ensures { OnOk result (text.new.items ≡ text.old.items ++ (head.now ++ (reason.now ++ 10 ∷ []))) }
{
    text.extend_from_slice(head)?;
    text.extend_from_slice(reason)?;
    text.push(b'\n')?;
    Ok(())
}

/// A line's number and position, and a tab after each. Takes memory for it.
fn line_head(alloc: Global, part: &Part) -> Result<String, AllocError>
    ensures exact { IfOk result (λ head. string_bytes head ≡ decimal part.now.tli ++ (9 ∷ (position_text part.now.switch ++ (9 ∷ [])))) }
    ensures number { (0 < part.now.tli) × (part.now.tli < 2 ^ 32) }
    ensures position { IfOk result (λ head. Spells (position_text part.now.switch) part.now.switch) }
{
    let Tli(number) = part.tli;
    let position = part.switch.text(alloc)?;
    format!(in alloc; "{number}\t{position}\t")
}
