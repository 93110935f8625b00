//! The log of a store, judged piece by piece.
ghost use Rattle.std.specs.Prelude.{◌≡◌, ◌+◌, ◌%◌, ◌^◌, ◌≤◌, ◌↔◌, ◌++◌, ℕ, List, [], length, true};
ghost use Rattle.repl_lsn.specs.Segment.{IsSegSize};
ghost use Rattle.repl_record.specs.Walker.{AreOn};
ghost use Rattle.repl_check.specs.Fits.{rest_of};
ghost use Rattle.repl_check.specs.Machine.{HasJudged, IsAtStage, IsJudging, IsPlaced, check_floor, check_identity, check_position};

use repl_lsn::{Lsn, Tli};
use repl_page::{PAGE_SIZE, header_size};
use repl_record::{Ident, Walker};
use repl_walk::{Rest, WalkFault, rest_on_page};

/// Judges the log of a store, which it is given from the floor on, piece by piece. Takes no memory.
#[derive(Clone, Copy, Debug)]
pub struct LogCheck {
    pub(crate) ident: Ident,
    /// The position of the log's first byte.
    pub(crate) floor: Lsn,
    /// The position of the next byte.
    pub(crate) at: Lsn,
    pub(crate) stage: Stage,
}

/// What was found so far.
#[derive(Clone, Copy, Debug)]
pub(crate) enum Stage {
    /// The rest of a record that began before the floor goes on.
    InRest(Rest),
    /// The log does not begin with the rest of a record.
    BadRest(WalkFault),
    /// All after the rest are records.
    InRecords {
        /// Where the image of the first begins.
        start: Lsn,
        walker: Walker,
    },
    /// What stands after the records is none.
    BadRecord {
        start: Lsn,
        /// Where the last of them ends.
        end: Lsn,
        /// Where that starts.
        last: Lsn,
        fault: WalkFault,
    },
}

impl LogCheck {
    /// Judges the log of this identity from a page's start on, with nothing of it so far.
    pub fn new(floor: Lsn, ident: Ident) -> LogCheck
        requires page { floor % PAGE_SIZE ≡ 0 }
        ensures judged { (timeline : ℕ → ℕ) → HasJudged result timeline floor [] }
        ensures ident { check_identity result ≡ ident }
        ensures position { check_position result ≡ floor }
    {
        let walker = Walker::new(floor, Lsn(0), ident);
        let _size = walker.ident().size.bytes();
        LogCheck {
            ident: walker.ident(),
            floor,
            at: floor,
            stage: Stage::InRecords {
                start: floor,
                walker,
            },
        }
    }

    /// Takes the next bytes, which begin with a page; so bytes that do not end with one are the last. Pages that begin in
    /// them are on this timeline.
    pub fn take(&mut self, tli: Tli, bytes: &[u8])
        requires judging { IsJudging self.old }
        requires page { check_position self.old % PAGE_SIZE ≡ 0 }
        requires room { check_position self.old + length bytes.now ≤ 2 ^ 63 }
        ensures judged { (timeline : ℕ → ℕ) (floor : ℕ) (log : List ℕ) → HasJudged self.old timeline floor log → AreOn timeline tli (check_position self.old) (length bytes.now)
            → HasJudged self.new timeline floor (log ++ bytes.now) }
        ensures ident { check_identity self.new ≡ check_identity self.old }
        ensures position { check_position self.new ≡ check_position self.old + length bytes.now }
    {
        let begun = self.begun(bytes);
        self.stage = self.through(begun, tli, bytes);
        self.at = Lsn(self.at.0 + bytes.len() as u64);
    }

    /// The position of the next byte.
    pub fn position(&self) -> Lsn
        ensures { result ≡ check_position self.now }
    {
        self.at
    }

    /// What is found before these bytes are gone through: with the first ones it is known with how many bytes of an earlier
    /// record the log begins.
    fn begun(&self, bytes: &[u8]) -> Stage
        requires judging { IsJudging self.now }
        requires page { check_position self.now % PAGE_SIZE ≡ 0 }
        ensures stage { (timeline : ℕ → ℕ) (floor : ℕ) (log : List ℕ) → HasJudged self.now timeline floor log
            → IsAtStage (check_identity self.now) timeline (rest_of (check_identity self.now) floor (log ++ bytes.now)) floor log result }
        ensures placed { IsPlaced result (check_position self.now) }
    {
        if self.at == self.floor {
            self.first_stage(bytes)
        } else {
            self.stage
        }
    }

    /// What is found before the first bytes are gone through.
    fn first_stage(&self, bytes: &[u8]) -> Stage
        requires page { check_floor self.now % PAGE_SIZE ≡ 0 }
        ensures stage { (timeline : ℕ → ℕ) → IsAtStage (check_identity self.now) timeline (rest_of (check_identity self.now) (check_floor self.now) bytes.now) (check_floor self.now) [] result }
        ensures placed { IsPlaced result (check_floor self.now) }
    {
        let rest = self.rest(bytes);
        if rest > 0 {
            Stage::InRest(Rest::new(self.floor, self.ident, rest))
        } else {
            Stage::InRecords {
                start: self.floor,
                walker: Walker::new(self.floor, Lsn(0), self.ident),
            }
        }
    }

    /// With how many bytes of an earlier record the log begins, of which these are the first bytes.
    fn rest(&self, bytes: &[u8]) -> u32
        ensures { result ≡ rest_of (check_identity self.now) (check_floor self.now) bytes.now }
    {
        let header = header_size(self.floor, self.ident.size) as usize;
        if self.is_at_origin() || bytes.len() < header {
            0
        } else {
            rest_on_page(bytes)
        }
    }

    /// Nothing of the log is gone.
    pub(crate) fn is_at_origin(&self) -> bool
        ensures value { (result ≡ true) ↔ (check_floor self.now ≡ (check_identity self.now).size) }
        ensures size { IsSegSize (check_identity self.now).size }
    {
        self.floor.0 == u64::from(self.ident.size.bytes())
    }
}
