ghost use Rattle.std.specs.Prelude.{◌≡◌, ℕ, ◌≤◌, length, IfOk, IfErr, string_bytes};
ghost use Rattle.repl_text.specs.Language.{StopsAt};
ghost use Rattle.repl_lsn.specs.Position.{Spells, IsPosition, IsCanonical, position_text, IsHalfAt, NoDigitAt};

use std::alloc::{AllocError, Global};
use std::fmt;
use std::marker::Model;
use thiserror::Error;

/// A position in the write-ahead log: the number of bytes before it (PostgreSQL 17 manual, section
/// "pg_lsn Type").
#[derive(Clone, Copy, Debug, PartialEq, Eq, PartialOrd, Ord)]
pub struct Lsn(pub u64);

impl Model for Lsn {
    ghost use Rattle.std.specs.Prelude.{ℕ, ◌<◌, ◌^◌};

    ghost Value = { ℕ };

    ghost view = { λ p. p.0 };

    ghost invariant = { λ p. p.0 < 2 ^ 64 };

    ghost inverse = { λ n. record { 0 = n } };
}

/// A text that spells no value.
#[derive(Clone, Copy, Debug, PartialEq, Eq, Error)]
#[error("wrong at byte {place}")]
pub struct PlaceFault {
    /// The place, from 0, of the first byte with which no spelling goes on, or the text's length where the
    /// text ends early.
    pub place: usize,
}

/// The most digits in each half of a position.
const HALF_DIGITS: usize = 8;

impl Lsn {
    /// The position that the text spells: one to eight hexadecimal digits of either case, a slash, and one
    /// to eight digits. Any other text is refused at the first byte with which no position goes on.
    pub fn parse(text: &[u8]) -> Result<Lsn, PlaceFault>
        ensures read { IfOk result (λ position. Spells text.now position) }
        ensures refused { IfErr result (λ fault. StopsAt IsPosition text.now fault.place) }
    {
        let (high, slash) = half_at(text, 0)?;
        if text.get(slash) != Some(&b'/') {
            return Err(PlaceFault { place: slash });
        }
        let (low, end) = half_at(text, slash + 1)?;
        if end < text.len() {
            return Err(PlaceFault { place: end });
        }
        Ok(Lsn((u64::from(high) << 32) + u64::from(low)))
    }

    /// The one text of the position without leading zeros, in upper case. Takes memory for it.
    pub fn text(self, alloc: Global) -> Result<String, AllocError>
        ensures exact { IfOk result (λ text. string_bytes text ≡ position_text self) }
        ensures canonical { IfOk result (λ text. IsCanonical (string_bytes text) self) }
    {
        format!(in alloc; "{self}")
    }
}

/// The position's canonical text.
impl fmt::Display for Lsn {
    ghost use Rattle.std.specs.Prelude.{Some};
    ghost use Rattle.repl_lsn.specs.Position.{position_text};

    ghost output = { λ position. Some (position_text position) };

    fn fmt<W: fmt::Write>(&self, f: &mut fmt::Formatter<W>) -> fmt::Result {
        let high = self.0 >> 32;
        let low = self.0 & 0xffff_ffff;
        write!(f, "{high:X}/{low:X}")
    }
}

/// The number that the digits at `start` write, as many as there are but eight at most, and the place
/// after them. A fault where there are none.
fn half_at(text: &[u8], start: usize) -> Result<(u32, usize), PlaceFault>
    requires { start ≤ length text.now }
    ensures read { IfOk result (λ half. IsHalfAt text.now start half.0 half.1) }
    ensures refused { IfErr result (λ fault. (fault.place ≡ start) × NoDigitAt text.now start) }
{
    let mut value = 0;
    let mut end = start;
    while end < text.len() && end < start + HALF_DIGITS {
        match (text[end] as char).to_digit(16) {
            Some(digit) => value = value * 16 + digit,
            None => break,
        }
        end += 1;
    }
    if end == start {
        return Err(PlaceFault { place: start });
    }
    Ok((value, end))
}
