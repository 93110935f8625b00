ghost use Rattle.std.specs.Prelude.{◌≡◌, ◌≢◌, ◌+◌, ◌^◌, ◌≤◌, ◌↔◌, ◌++◌, ℕ, List, length, IsOk, IfErr, IfSome, OnOk};
ghost use Rattle.repl_record.specs.Walker.{AreOn, identity, position};
ghost use Rattle.repl_walk.specs.Anywhere.{HasRefusedPastAny, HasWalkedPastAny, IsPrefixPastAny, IsPrevFault};

use crate::pieces::{WalkFault, walk};
use repl_lsn::{Lsn, Tli};
use repl_record::{WalkReason, Walker};

/// Takes a whole piece of a log of which the beginning is gone, as `walk` does: of the first record, whose image begins at
/// `from`, it does not judge where the record before starts. Takes no memory.
pub fn walk_past_any(
    walker: &mut Walker,
    from: Lsn,
    tli: Tli,
    bytes: &[u8],
) -> Result<(), WalkFault>
    requires { position walker.old + length bytes.now ≤ 2 ^ 63 }
    // All bytes from there on are a prefix of records after some record, or the piece is refused.
    ensures exact { (timeline : ℕ → ℕ) (log : List ℕ) → HasWalkedPastAny walker.old timeline from log → AreOn timeline tli (position walker.old) (length bytes.now)
        → IsOk result ↔ IsPrefixPastAny (identity walker.old) timeline from (log ++ bytes.now) }
    ensures goes_on { OnOk result ((timeline : ℕ → ℕ) (log : List ℕ) → HasWalkedPastAny walker.old timeline from log → AreOn timeline tli (position walker.old) (length bytes.now)
        → HasWalkedPastAny walker.new timeline from (log ++ bytes.now)) }
    ensures refuses { IfErr result (λ fault. (timeline : ℕ → ℕ) (log : List ℕ) → HasWalkedPastAny walker.old timeline from log → AreOn timeline tli (position walker.old) (length bytes.now)
        → HasRefusedPastAny walker.new timeline from (log ++ bytes.now) fault.at fault.why) }
    ensures ident { identity walker.new ≡ identity walker.old }
    ensures passes { OnOk result (position walker.new ≡ position walker.old + length bytes.now) }
{
    // That the size is that of segments is known once it is read.
    let _size = walker.ident().size.bytes();
    let before = *walker;
    let fault = match walk(walker, tli, bytes) {
        Ok(()) => return Ok(()),
        Err(fault) => fault,
    };
    let Some(found) = prev_found(&fault) else {
        return Err(fault);
    };
    if walker.last_end().0 != from.0 {
        return Err(fault);
    }
    // The first record tells where the one before starts: it is walked over after that one.
    *walker = before.past(found);
    walk(walker, tli, bytes)
}

/// Where the record before starts by a record that does not follow it.
fn prev_found(fault: &WalkFault) -> Option<Lsn>
    ensures told { IfSome result (λ found. IsPrevFault fault.now.why found) }
    ensures none { (result ≡ None) → (found expected : ℕ) → fault.now.why ≢ WalkReason.Prev found expected }
{
    match fault.why {
        WalkReason::Prev { found, .. } => Some(found),
        _ => None,
    }
}
