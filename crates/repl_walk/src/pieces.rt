ghost use Rattle.std.specs.Prelude.{◌≡◌, ◌+◌, ◌^◌, ◌≤◌, ◌↔◌, ◌++◌, ℕ, List, length, IsOk, IfErr, OnOk, Err};
ghost use Rattle.repl_record.specs.declared.answer.WalkReason.{WalkReason};
ghost use Rattle.repl_record.specs.Log.{IsPrefixOfRecords, IsWholeEnd};
ghost use Rattle.repl_record.specs.Walker.{AreOn, Refuses, identity, last_end, last_start, position};
ghost use Rattle.repl_walk.specs.Walks.{HasRefused, HasWalked};

use repl_lsn::{Lsn, Tli};
use repl_record::{WalkReason, WalkStep, Walker};
use thiserror::Error;

/// Where the log is no records, and why.
#[derive(Clone, Copy, Debug, PartialEq, Eq, Error)]
#[error("{why} at {at}")]
pub struct WalkFault {
    /// Where the record begins, or, for a page's header, the page's address.
    pub at: Lsn,
    pub why: WalkReason,
}

/// Takes a whole piece of the log, the next after those that the walker was given, and judges it. Pages that begin in
/// it are on this timeline. The walker then tells where the last whole record ends and starts, also where the piece is
/// refused. Takes no memory.
pub fn walk(walker: &mut Walker, tli: Tli, bytes: &[u8]) -> Result<(), WalkFault>
    requires { position walker.old + length bytes.now ≤ 2 ^ 63 }
    // All bytes since the walk began are a prefix of records, or the piece is refused.
    ensures exact { (timeline : ℕ → ℕ) (from prev : ℕ) (log : List ℕ) → HasWalked walker.old timeline from prev log → AreOn timeline tli (position walker.old) (length bytes.now)
        → IsOk result ↔ IsPrefixOfRecords (identity walker.old) timeline from prev (log ++ bytes.now) }
    // Of all their record ends the walker keeps the greatest, whatever is answered.
    ensures whole { (timeline : ℕ → ℕ) (from prev : ℕ) (log : List ℕ) → HasWalked walker.old timeline from prev log → AreOn timeline tli (position walker.old) (length bytes.now)
        → IsWholeEnd (identity walker.old) timeline from prev (log ++ bytes.now) (last_end walker.new) (last_start walker.new) }
    // The walker has gone through them, or refuses the first fault in them.
    ensures goes_on { OnOk result ((timeline : ℕ → ℕ) (from prev : ℕ) (log : List ℕ) → HasWalked walker.old timeline from prev log → AreOn timeline tli (position walker.old) (length bytes.now)
        → HasWalked walker.new timeline from prev (log ++ bytes.now)) }
    ensures refuses { IfErr result (λ fault. (timeline : ℕ → ℕ) (from prev : ℕ) (log : List ℕ) → HasWalked walker.old timeline from prev log → AreOn timeline tli (position walker.old) (length bytes.now)
        → HasRefused walker.new timeline from prev (log ++ bytes.now) fault.at fault.why) }
    // A fault is answered again.
    ensures again { (at : ℕ) (reason : WalkReason) → Refuses walker.old at reason → (result ≡ Err (record { at = at; why = reason })) × (walker.new ≡ walker.old) }
    ensures ident { identity walker.new ≡ identity walker.old }
    ensures passes { OnOk result (position walker.new ≡ position walker.old + length bytes.now) }
{
    // That the size is that of segments is known once it is read.
    let _size = walker.ident().size.bytes();
    let mut rest = bytes;
    'records: loop {
        match walker.step(tli, rest) {
            WalkStep::Whole { used, .. } => rest = &rest[used..],
            WalkStep::Short => return Ok(()),
            WalkStep::Bad { at, why } => return Err(WalkFault { at, why }),
        }
    }
}
