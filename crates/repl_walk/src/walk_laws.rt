ghost use Rattle.std.specs.Prelude.{◌≡◌, ◌+◌, ◌-◌, ◌%◌, ℕ, List, [], length, drop};
ghost use Rattle.repl_record.specs.declared.walker.Walker.{Walker};
ghost use Rattle.repl_record.specs.Log.{RecordEnd};
ghost use Rattle.repl_record.specs.Walker.{Stands, identity, last_end, last_start};
ghost use Rattle.repl_walk.specs.Walks.{HasWalked};

/// A walker that begins where a record ends and the log with it, as a new one does after what was laid out, has gone
/// through the log.
pub fn begins_at_an_end()
    ensures { (w : Walker) (timeline : ℕ → ℕ) (from prev : ℕ) (log : List ℕ) (last : ℕ) → from % 8 ≡ 0 → RecordEnd (identity w) timeline from prev log (from + length log) last
        → Stands w timeline (from + length log) last [] → HasWalked w timeline from prev log }
{}

/// A walker that has gone through the log has gone through what stands past the end that it keeps: whoever moves the
/// beginning up to there goes on with the same walker.
pub fn goes_on_from_its_end()
    ensures { (w : Walker) (timeline : ℕ → ℕ) (from prev : ℕ) (log : List ℕ) → HasWalked w timeline from prev log
        → HasWalked w timeline (last_end w) (last_start w) (drop (last_end w - from) log) }
{}
