//! What a check has found of a log.
ghost use Rattle.std.specs.Prelude.{◌≡◌, ◌↔◌, ℕ, List, true, IsOk, IfErr};
ghost use Rattle.repl_lsn.specs.Segment.{IsSegSize};
ghost use Rattle.repl_page.specs.Page.{IsPage};
ghost use Rattle.repl_check.specs.Fits.{Fits, HasBadRecord, HasRecords, IsStoredRight, rest_of};
ghost use Rattle.repl_check.specs.Flaws.{IsFlaw};
ghost use Rattle.repl_check.specs.Machine.{HasJudged, check_floor, check_identity};

use crate::flaw::Flaw;
use crate::log_check::{LogCheck, Stage};
use repl_lsn::Lsn;
use repl_walk::WalkFault;

impl LogCheck {
    /// Whether all that was taken fits a store that says that the last whole record ends at `whole` and starts at `stored`,
    /// which is 0 without one; and what is wrong if not.
    pub fn fits(&self, whole: Lsn, stored: Lsn) -> Result<(), Flaw>
        ensures exact { (timeline : ℕ → ℕ) (floor : ℕ) (log : List ℕ) → HasJudged self.now timeline floor log
            → IsOk result ↔ Fits (check_identity self.now) timeline floor log whole stored }
        ensures flaw { IfErr result (λ flaw. (timeline : ℕ → ℕ) (floor : ℕ) (log : List ℕ) → HasJudged self.now timeline floor log
            → IsFlaw (check_identity self.now) timeline floor log whole stored flaw) }
    {
        match self.stage {
            Stage::InRest(_) => Err(Flaw::Whole),
            Stage::BadRest(fault) => Err(Flaw::Bad {
                at: fault.at,
                why: fault.why,
            }),
            Stage::InRecords { start, walker } => {
                let end = walker.last_end();
                let last = walker.last_start();
                self.records_fit(start, end, last, whole, stored)
            }
            Stage::BadRecord {
                start,
                end,
                last,
                fault,
            } => Err(self.flaw_at(start, end, last, &fault, whole, stored)),
        }
    }

    /// What is found of a log that is records: the last whole one ends and starts so.
    fn records_fit(
        &self,
        start: Lsn,
        end: Lsn,
        last: Lsn,
        whole: Lsn,
        stored: Lsn,
    ) -> Result<(), Flaw>
        ensures exact { (timeline : ℕ → ℕ) (log : List ℕ) → IsSegSize (check_identity self.now).size → IsPage (check_floor self.now)
            → HasRecords (check_identity self.now) timeline (rest_of (check_identity self.now) (check_floor self.now) log) (check_floor self.now) log start end last
            → IsOk result ↔ Fits (check_identity self.now) timeline (check_floor self.now) log whole stored }
        ensures flaw { IfErr result (λ flaw. (timeline : ℕ → ℕ) (log : List ℕ) → HasRecords (check_identity self.now) timeline (rest_of (check_identity self.now) (check_floor self.now) log) (check_floor self.now) log start end last
            → IsFlaw (check_identity self.now) timeline (check_floor self.now) log whole stored flaw) }
    {
        if end != whole {
            Err(Flaw::Whole)
        } else if self.is_stored_right(start, end, last, stored) {
            Ok(())
        } else {
            Err(Flaw::Last)
        }
    }

    /// What is wrong with a log whose records break off so.
    fn flaw_at(
        &self,
        start: Lsn,
        end: Lsn,
        last: Lsn,
        fault: &WalkFault,
        whole: Lsn,
        stored: Lsn,
    ) -> Flaw
        ensures { (timeline : ℕ → ℕ) (log : List ℕ) → HasBadRecord (check_identity self.now) timeline (rest_of (check_identity self.now) (check_floor self.now) log) (check_floor self.now) log start end last fault.now.at fault.now.why
            → IsFlaw (check_identity self.now) timeline (check_floor self.now) log whole stored result }
    {
        if whole < end {
            Flaw::Whole
        } else if end == whole && !self.is_stored_right(start, end, last, stored) {
            Flaw::Last
        } else {
            let at = fault.at;
            Flaw::Bad { at, why: fault.why }
        }
    }

    /// The store says right where the last whole record starts, or that is not judged.
    fn is_stored_right(&self, start: Lsn, end: Lsn, last: Lsn, stored: Lsn) -> bool
        ensures { (result ≡ true) ↔ IsStoredRight (check_identity self.now) (check_floor self.now) start end last stored }
    {
        stored == last || (end <= start && !self.is_at_origin())
    }
}
