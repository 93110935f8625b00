ghost use Rattle.std.specs.Prelude.{◌≡◌, ◌+◌, ◌%◌, ◌^◌, ◌<◌, ◌≤◌, ◌++◌, ℕ, List, [], length};
ghost use Rattle.repl_record.specs.declared.answer.WalkReason.{WalkReason};
ghost use Rattle.repl_record.specs.Judging.{Answers};
ghost use Rattle.repl_record.specs.Walker.{identity, position, last_end, last_start, Stands, Refuses, AreOn, GoesOn, Passes, so_far};

use crate::answer::{WalkReason, WalkStep};
use crate::record::HEAD_LENGTH;
use repl_lsn::{Lsn, Tli};
use repl_page::{HEADER_LIMIT, Ident};

/// What a walker that met a fault answers from then on.
#[derive(Clone, Copy, Debug)]
pub(crate) struct Refusal {
    pub(crate) at: Lsn,
    pub(crate) why: WalkReason,
}

/// Goes through the log's bytes in pieces of any size, and tells where each record ends, or the first fault as soon as
/// its bytes are there. Takes no memory, and has a fixed size.
#[derive(Clone, Copy, Debug)]
pub struct Walker {
    pub(crate) ident: Ident,
    /// Where the image of the present record begins.
    pub(crate) from: Lsn,
    /// Where the record before begins.
    pub(crate) prev: Lsn,
    /// The position of the next byte.
    pub(crate) at: Lsn,
    /// The header of the page in which that is, as far as it is there.
    pub(crate) header: [u8; HEADER_LIMIT],
    /// The timeline that is due in it.
    pub(crate) page_timeline: Tli,
    /// The record's first bytes, as far as they are there.
    pub(crate) front: [u8; HEAD_LENGTH],
    /// How many of the record's bytes are there.
    pub(crate) count: u32,
    /// The checksum of those of its body.
    pub(crate) sum: u32,
    pub(crate) refused: Option<Refusal>,
}

impl Walker {
    /// A walker over the log from this position on, at which a record's image begins after the record that starts at
    /// `prev` (0 for the log's first).
    pub fn new(at: Lsn, prev: Lsn, ident: Ident) -> Walker
        requires { at % 8 ≡ 0 }
        ensures stands { (timeline : ℕ → ℕ) → Stands result timeline at prev [] }
        ensures ident { identity result ≡ ident }
    {
        Walker {
            ident,
            from: at,
            prev,
            at,
            header: [0; HEADER_LIMIT],
            page_timeline: Tli(1),
            front: [0; HEAD_LENGTH],
            count: 0,
            sum: 0,
            refused: None,
        }
    }

    /// The same walker after a record that starts elsewhere. Where that is has not been judged while fewer than 16 bytes
    /// of the present record are there.
    pub fn past(self, prev: Lsn) -> Walker
        ensures stands { (timeline : ℕ → ℕ) (from other : ℕ) (log : List ℕ) → Stands self timeline from other log → length (so_far self from log) < 16
            → Stands result timeline from prev log }
        ensures ident { identity result ≡ identity self }
        ensures position { position result ≡ position self }
    {
        Walker { prev, ..self }
    }

    /// What the pages of its log have in common.
    pub fn ident(&self) -> Ident
        ensures { result ≡ identity self.now }
    {
        self.ident
    }

    /// The position of the next byte.
    pub fn position(&self) -> Lsn
        ensures { result ≡ position self.now }
    {
        self.at
    }

    /// Where the last whole record ends, after which the walker stands, or where the walker began while none was whole.
    pub fn last_end(&self) -> Lsn
        ensures { result ≡ last_end self.now }
    {
        self.from
    }

    /// Where that record starts.
    pub fn last_start(&self) -> Lsn
        ensures { result ≡ last_start self.now }
    {
        self.prev
    }

    /// Takes the log's next bytes, up to the end of the record in them or to a fault. Pages that begin in them are on
    /// this timeline. Once a fault was met it is answered again.
    pub fn step(&mut self, tli: Tli, bytes: &[u8]) -> WalkStep
        requires { position self.old + length bytes.now ≤ 2 ^ 63 }
        // What is answered is so of all bytes since the record's image began.
        ensures answers { (timeline : ℕ → ℕ) (from prev : ℕ) (log : List ℕ) → Stands self.old timeline from prev log → AreOn timeline tli (position self.old) (length bytes.now)
            → Answers (identity self.old) timeline from prev (log ++ bytes.now) result }
        // The walker stands after them, or after the record that ended, or it refuses.
        ensures goes_on { (timeline : ℕ → ℕ) (from prev : ℕ) (log : List ℕ) → Stands self.old timeline from prev log → AreOn timeline tli (position self.old) (length bytes.now)
            → GoesOn self.new timeline from prev log bytes.now result }
        ensures again { (at : ℕ) (reason : WalkReason) → Refuses self.old at reason → (result ≡ WalkStep.Bad at reason) × (self.new ≡ self.old) }
        ensures ident { identity self.new ≡ identity self.old }
        ensures passes { Passes self.old self.new (length bytes.now) result }
    {
        if let Some(refusal) = self.refused {
            return WalkStep::Bad {
                at: refusal.at,
                why: refusal.why,
            };
        }
        if let Some(taken) = self.image_at_once(bytes) {
            return self.pass_image(taken);
        }
        let mut used = 0;
        while used < bytes.len() {
            match self.advance(tli, &bytes[used..]) {
                Ok(taken) => used += taken,
                Err(refusal) => return self.refuse(&refusal),
            }
            if self.is_over() {
                return self.begin_next(used);
            }
        }
        WalkStep::Short
    }
}
