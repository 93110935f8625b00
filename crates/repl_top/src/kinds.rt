//! The kinds of words on a command line, and their values.
ghost use Rattle.std.specs.Prelude.{◌≡◌, ◌≤◌, ◌<◌, ◌^◌, ◌↔◌, ℕ, IsTrue, IfSome, IfNone, IfOk, IfErr};
ghost use Rattle.repl_lsn.specs.Position.{Spells};
ghost use Rattle.repl_control.specs.declared.control.Role.{Role};
ghost use Rattle.repl_message.specs.declared.message.Side.{Side};
ghost use Rattle.repl_top.specs.Words.{IsMagic, IsNumber, IsRole, IsSide, IsSystem, IsTimeline, IsWordOf};

use repl_args::Kind;
use repl_lsn::{Lsn, Tli};
use repl_store::Role;
use repl_wire::Side;

/// The greatest value of four hexadecimal digits.
const MAGIC_LIMIT: u64 = 65_535;

const _: () = prove!(MAGIC_LIMIT == 65_535);

/// What a word in some place may be.
#[derive(Clone, Copy)]
pub(crate) enum Word {
    /// Any word.
    Text,
    /// A system identifier: decimal digits of a value below 2^64.
    System,
    /// A timeline's number: decimal digits of a value from 1 to 2^32 - 1.
    Timeline,
    /// A position of the log.
    Position,
    /// `front` or `back`.
    Side,
    /// `primary` or `standby`.
    Role,
    /// The magic number of pages: one to four hexadecimal digits of either case.
    Magic,
}

impl Kind for Word {
    ghost use Rattle.std.proofs.Common.{rules};
    ghost use Rattle.repl_top.specs.Words.{IsWordOf};
    ghost use Rattle.repl_top.specs.Witness.{some_word};

    ghost is = { IsWordOf };

    ghost some = { some_word };

    fn takes(&self, word: &str) -> bool {
        match self {
            Word::Text => true,
            Word::System => read_system(word).is_some(),
            Word::Timeline => read_timeline(word).is_some(),
            Word::Position => is_position(word),
            Word::Side => read_side(word).is_some(),
            Word::Role => read_role(word).is_some(),
            Word::Magic => is_magic(word),
        }
    }
}

/// The value of digits to this base, of which there is at least one, where it is at most `limit`.
fn read_number(word: &str, base: u64, limit: u64) -> Option<u64>
    requires { (2 ≤ base) × (base ≤ 36) }
    ensures some { IfSome result (λ n. IsNumber base word.now n × (n ≤ limit)) }
    ensures none { IfNone result ((n : ℕ) → IsNumber base word.now n → n ≤ limit → ⊥) }
{
    if word.is_empty() {
        return None;
    }
    let mut value = 0u64;
    for byte in word.as_bytes() {
        let digit = (*byte as char).to_digit(base as u32)?;
        value = value.checked_mul(base)?.checked_add(u64::from(digit))?;
    }
    if value <= limit { Some(value) } else { None }
}

/// A system identifier.
pub(crate) fn read_system(word: &str) -> Option<u64>
    ensures some { IfSome result (λ n. IsSystem word.now n) }
    ensures none { IfNone result ((n : ℕ) → IsSystem word.now n → ⊥) }
{
    read_number(word, 10, u64::MAX)
}

/// A timeline's number.
pub(crate) fn read_timeline(word: &str) -> Option<Tli>
    ensures some { IfSome result (λ n. IsTimeline word.now n) }
    ensures none { IfNone result ((n : ℕ) → IsTimeline word.now n → ⊥) }
{
    let number = read_number(word, 10, u64::from(u32::MAX))?;
    Tli::new(number as u32)
}

/// A position of the log.
pub(crate) fn read_position(word: &str) -> Option<Lsn>
    ensures some { IfSome result (λ n. Spells word.now n) }
    ensures none { IfNone result ((n : ℕ) → Spells word.now n → ⊥) }
{
    Lsn::parse(word.as_bytes()).ok()
}

/// Whose messages are meant.
pub(crate) fn read_side(word: &str) -> Option<Side>
    ensures some { IfSome result (λ side. IsSide word.now side) }
    ensures none { IfNone result ((side : Side) → IsSide word.now side → ⊥) }
{
    match word {
        "front" => Some(Side::Front),
        "back" => Some(Side::Back),
        _ => None,
    }
}

/// What a new store is to be.
pub(crate) fn read_role(word: &str) -> Option<Role>
    ensures some { IfSome result (λ role. IsRole word.now role) }
    ensures none { IfNone result ((role : Role) → IsRole word.now role → ⊥) }
{
    match word {
        "primary" => Some(Role::Primary),
        "standby" => Some(Role::Standby),
        _ => None,
    }
}

/// The magic number of pages.
pub(crate) fn read_magic(word: &str) -> Option<u16>
    ensures some { IfSome result (λ n. IsMagic word.now n) }
    ensures none { IfNone result ((n : ℕ) → IsMagic word.now n → ⊥) }
{
    if word.len() > 4 {
        return None;
    }
    match read_number(word, 16, MAGIC_LIMIT) {
        Some(number) => Some(number as u16),
        None => None,
    }
}

/// Whether the word is a position of the log.
fn is_position(word: &str) -> bool
    ensures { IsTrue result ↔ ((n : ℕ) × Spells word.now n) }
{
    match read_position(word) {
        Some(_) => true,
        None => false,
    }
}

/// Whether the word is a magic number.
fn is_magic(word: &str) -> bool
    ensures { IsTrue result ↔ ((n : ℕ) × IsMagic word.now n) }
{
    match read_magic(word) {
        Some(_) => true,
        None => false,
    }
}
