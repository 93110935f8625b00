//! How a check goes through the next bytes of a log.
ghost use Rattle.std.specs.Prelude.{◌≡◌, ◌+◌, ◌%◌, ◌^◌, ◌≤◌, ◌++◌, ℕ, List, length, IfErr, OnOk};
ghost use Rattle.repl_page.specs.Page.{IsPage};
ghost use Rattle.repl_record.specs.Walker.{AreOn, identity, position};
ghost use Rattle.repl_walk.specs.Rest.{rest_position};
ghost use Rattle.repl_walk.specs.Walks.{HasWalked};
ghost use Rattle.repl_check.specs.Fits.{IsBefore};
ghost use Rattle.repl_check.specs.Machine.{HasStopped, HasWalkedOn, InRecords, InRest, IsAtStage, IsPlaced, check_floor, check_identity, check_position};

use crate::log_check::{LogCheck, Stage};
use repl_lsn::{Lsn, Tli};
use repl_page::PAGE_SIZE;
use repl_record::Walker;
use repl_walk::{Rest, RestStep, WalkFault, walk, walk_past_any};

impl LogCheck {
    /// Goes through the bytes from this stage on.
    pub(crate) fn through(&self, stage: Stage, tli: Tli, bytes: &[u8]) -> Stage
        requires page { check_position self.now % PAGE_SIZE ≡ 0 }
        requires placed { IsPlaced stage (check_position self.now) }
        requires room { check_position self.now + length bytes.now ≤ 2 ^ 63 }
        ensures { (timeline : ℕ → ℕ) (rest : ℕ) (log : List ℕ) → IsAtStage (check_identity self.now) timeline rest (check_floor self.now) log stage
            → IsPage (check_floor self.now) → check_position self.now ≡ check_floor self.now + length log → AreOn timeline tli (check_position self.now) (length bytes.now)
            → IsAtStage (check_identity self.now) timeline rest (check_floor self.now) (log ++ bytes.now) result }
    {
        match stage {
            Stage::InRest(rest) => self.through_rest(rest, tli, bytes),
            Stage::InRecords { start, walker } => self.through_records(start, walker, tli, bytes),
            Stage::BadRest(_) | Stage::BadRecord { .. } => stage,
        }
    }

    /// Goes through the rest of an earlier record, and then through records.
    fn through_rest(&self, rest: Rest, tli: Tli, bytes: &[u8]) -> Stage
        requires page { check_position self.now % PAGE_SIZE ≡ 0 }
        requires placed { rest_position rest ≡ check_position self.now }
        requires room { check_position self.now + length bytes.now ≤ 2 ^ 63 }
        ensures { (timeline : ℕ → ℕ) (count : ℕ) (log : List ℕ) → InRest (check_identity self.now) timeline count (check_floor self.now) log rest
            → IsPage (check_floor self.now) → check_position self.now ≡ check_floor self.now + length log → AreOn timeline tli (check_position self.now) (length bytes.now)
            → IsAtStage (check_identity self.now) timeline count (check_floor self.now) (log ++ bytes.now) result }
    {
        let mut rest = rest;
        match rest.step(tli, bytes) {
            RestStep::Short => Stage::InRest(rest),
            RestStep::Bad { at, why } => Stage::BadRest(WalkFault { at, why }),
            RestStep::Whole { used, .. } => {
                let start = Lsn(self.at.0 + used as u64);
                let walker = Walker::new(start, Lsn(0), self.ident);
                self.through_records(start, walker, tli, &bytes[used..])
            }
        }
    }

    /// Goes through records, of which the image of the first begins at `start`.
    fn through_records(&self, start: Lsn, walker: Walker, tli: Tli, bytes: &[u8]) -> Stage
        requires room { position walker + length bytes.now ≤ 2 ^ 63 }
        ensures { (timeline : ℕ → ℕ) (rest : ℕ) (log : List ℕ) → InRecords (check_identity self.now) timeline rest (check_floor self.now) log start walker
            → IsPage (check_floor self.now) → AreOn timeline tli (position walker) (length bytes.now)
            → IsAtStage (check_identity self.now) timeline rest (check_floor self.now) (log ++ bytes.now) result }
    {
        let mut walker = walker;
        match self.walk_on(start, &mut walker, tli, bytes) {
            Ok(()) => Stage::InRecords { start, walker },
            Err(fault) => Stage::BadRecord {
                start,
                end: walker.last_end(),
                last: walker.last_start(),
                fault,
            },
        }
    }

    /// Walks on through records. Above the origin it is not judged where the record before the first one starts.
    fn walk_on(
        &self,
        start: Lsn,
        walker: &mut Walker,
        tli: Tli,
        bytes: &[u8],
    ) -> Result<(), WalkFault>
        requires room { position walker.old + length bytes.now ≤ 2 ^ 63 }
        ensures ident { identity walker.new ≡ identity walker.old }
        ensures goes_on { OnOk result ((timeline : ℕ → ℕ) (prev : ℕ) (log : List ℕ) → IsBefore (check_identity self.now) (check_floor self.now) prev
            → HasWalked walker.old timeline start prev log → AreOn timeline tli (position walker.old) (length bytes.now)
            → HasWalkedOn (check_identity self.now) timeline (check_floor self.now) start (log ++ bytes.now) walker.new) }
        ensures refuses { IfErr result (λ fault. (timeline : ℕ → ℕ) (prev : ℕ) (log : List ℕ) → IsBefore (check_identity self.now) (check_floor self.now) prev
            → HasWalked walker.old timeline start prev log → AreOn timeline tli (position walker.old) (length bytes.now)
            → HasStopped (check_identity self.now) timeline (check_floor self.now) start (log ++ bytes.now) walker.new fault.at fault.why) }
    {
        if self.is_at_origin() {
            walk(walker, tli, bytes)
        } else {
            walk_past_any(walker, start, tli, bytes)
        }
    }
}
