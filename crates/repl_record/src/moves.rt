ghost use Rattle.std.specs.Prelude.{◌≡◌, ◌+◌, ◌-◌, ◌%◌, ◌^◌, ◌<◌, ◌≤◌, ◌++◌, ◌↔◌, ◌≢◌, ℕ, List, length, take, IsTrue, IsOk, IfErr, OnOk};
ghost use Rattle.repl_lsn.specs.Segment.{IsSegSize};
ghost use Rattle.repl_page.specs.Page.{in_header, page_start, header_length};
ghost use Rattle.repl_page.specs.Header.{Agrees, IsPageFault, field};
ghost use Rattle.repl_record.specs.Judging.{IsLength};
ghost use Rattle.repl_record.specs.Record.{start_of};
ghost use Rattle.repl_record.specs.Walker.{position, Stands, AreOn};
ghost use Rattle.repl_record.specs.Moves.{Moved, Took, IsOfOneLog, IsAtEnd, IsEnded, IsFine, IsWrong, renewed, refusing, with_header, with_record, with_gap, due_header, goal, total, full_sum};

use crate::answer::{WalkReason, WalkStep};
use crate::checksum::crc32c;
use crate::record::{BODY_LIMIT, HEAD_LENGTH};
use crate::walker::{Refusal, Walker};
use byteorder::{ByteOrder, LittleEndian};
use repl_lsn::{Lsn, Tli};
use repl_page::{PAGE_SIZE, PageFault, check_header, header_size};

/// The size of a page as positions count.
const PAGE: u64 = PAGE_SIZE as u64;

impl Walker {
    /// Takes some of the bytes, up to the next place at which something is judged, and judges it.
    pub(crate) fn advance(&mut self, tli: Tli, bytes: &[u8]) -> Result<usize, Refusal>
        requires some { 0 < length bytes.now }
        requires room { position self.old + length bytes.now ≤ 2 ^ 63 }
        ensures moved { (timeline : ℕ → ℕ) (from prev : ℕ) (log : List ℕ) → Stands self.old timeline from prev log → AreOn timeline tli (position self.old) (length bytes.now)
            → Moved self.old self.new timeline from prev log bytes.now result }
        ensures took { Took self.old self.new bytes.now result }
        ensures same { IsOfOneLog self.old self.new }
        ensures size { IsSegSize self.old.ident.size }
    {
        if self.place() < self.header_length() {
            self.through_header(tli, bytes)
        } else if self.count < self.goal() {
            self.through_record(bytes)
        } else {
            self.through_gap(bytes)
        }
    }

    /// Where on its page the next byte stands.
    fn place(&self) -> usize
        ensures { result ≡ self.now.at % PAGE_SIZE }
    {
        (self.at.0 % PAGE) as usize
    }

    /// How many bytes the header of that page has.
    fn header_length(&self) -> usize
        ensures value { result ≡ header_length self.now.ident.size self.now.at }
        ensures limit { result ≤ 40 }
        ensures size { IsSegSize self.now.ident.size }
    {
        header_size(self.at, self.ident.size) as usize
    }

    /// Takes a part of a page's header, and judges the header where it is whole and began after the record's image.
    fn through_header(&mut self, tli: Tli, bytes: &[u8]) -> Result<usize, Refusal>
        requires some { 0 < length bytes.now }
        requires room { position self.old + length bytes.now ≤ 2 ^ 63 }
        requires size { IsSegSize self.old.ident.size }
        requires inside { self.old.at % PAGE_SIZE < header_length self.old.ident.size self.old.at }
        ensures moved { (timeline : ℕ → ℕ) (from prev : ℕ) (log : List ℕ) → Stands self.old timeline from prev log → AreOn timeline tli (position self.old) (length bytes.now)
            → Moved self.old self.new timeline from prev log bytes.now result }
        ensures took { Took self.old self.new bytes.now result }
        ensures same { IsOfOneLog self.old self.new }
    {
        let place = self.place();
        let left = self.header_length() - place;
        let taken = left.min(bytes.len());
        let page = Lsn(self.at.0 - place as u64);
        self.keep_header(tli, &bytes[..taken]);
        if taken < left || page < self.from {
            return Ok(taken);
        }
        match self.judge_header(page) {
            Ok(()) => Ok(taken),
            Err(fault) => Err(Refusal {
                at: page,
                why: WalkReason::Page(fault),
            }),
        }
    }

    /// Writes a part of a page's header down.
    fn keep_header(&mut self, tli: Tli, piece: &[u8])
        requires fits { self.old.at % PAGE_SIZE + length piece.now ≤ 40 }
        requires room { position self.old + length piece.now ≤ 2 ^ 63 }
        ensures { self.new ≡ with_header self.old tli piece.now }
    {
        let place = self.place();
        if place == 0 {
            self.page_timeline = tli;
        }
        self.header[place..place + piece.len()].copy_from_slice(piece);
        self.at = Lsn(self.at.0 + piece.len() as u64);
    }

    /// Judges the header of this page, which is whole.
    fn judge_header(&self, page: Lsn) -> Result<(), PageFault>
        ensures agrees { IsOk result ↔ Agrees (due_header self.now page) (take (header_length self.now.ident.size page) self.now.header) }
        ensures refused { IfErr result (IsPageFault (due_header self.now page) (take (header_length self.now.ident.size page) self.now.header)) }
    {
        let remaining = if page == self.from {
            0
        } else {
            self.total().saturating_sub(self.count)
        };
        let due = self.ident.header(self.page_timeline, page, remaining);
        let length = header_size(page, self.ident.size) as usize;
        check_header(&due, &self.header[..length])
    }

    /// The record's length, once it is there.
    fn total(&self) -> u32
        ensures { result ≡ total self.now }
    {
        LittleEndian::read_u32(&self.front)
    }

    /// Up to how many of the record's bytes nothing more is judged of it.
    fn goal(&self) -> u32
        ensures { result ≡ goal self.now }
    {
        match self.count {
            0..=3 => 4,
            4..=15 => 16,
            16..=19 => 20,
            20..=23 => 24,
            _ => self.total(),
        }
    }

    /// Takes a part of a record, and judges what is whole with it.
    fn through_record(&mut self, bytes: &[u8]) -> Result<usize, Refusal>
        requires some { 0 < length bytes.now }
        requires room { position self.old + length bytes.now ≤ 2 ^ 63 }
        requires size { IsSegSize self.old.ident.size }
        requires outside { header_length self.old.ident.size self.old.at ≤ self.old.at % PAGE_SIZE }
        requires unfinished { self.old.count < goal self.old }
        ensures moved { (timeline : ℕ → ℕ) (from prev : ℕ) (log : List ℕ) → Stands self.old timeline from prev log
            → Moved self.old self.new timeline from prev log bytes.now result }
        ensures took { Took self.old self.new bytes.now result }
        ensures same { IsOfOneLog self.old self.new }
    {
        let goal = self.goal();
        let left = (goal - self.count) as usize;
        let on_page = PAGE as usize - self.place();
        let taken = left.min(on_page).min(bytes.len());
        self.keep_record(&bytes[..taken]);
        match self.judge_record() {
            Ok(()) => Ok(taken),
            Err(why) => Err(Refusal {
                at: self.start(),
                why,
            }),
        }
    }

    /// Writes a part of a record down: of its first bytes, or of its body.
    fn keep_record(&mut self, piece: &[u8])
        requires fits { self.old.count + length piece.now ≤ goal self.old }
        requires room { position self.old + length piece.now ≤ 2 ^ 63 }
        ensures { self.new ≡ with_record self.old piece.now }
    {
        let count = self.count as usize;
        if count < HEAD_LENGTH {
            self.front[count..count + piece.len()].copy_from_slice(piece);
        } else {
            self.sum = crc32c(self.sum, piece);
        }
        self.count += piece.len() as u32;
        self.at = Lsn(self.at.0 + piece.len() as u64);
    }

    /// Judges what is whole with the last of the record's bytes.
    fn judge_record(&self) -> Result<(), WalkReason>
        ensures fine { OnOk result (IsFine self.now) }
        ensures wrong { IfErr result (IsWrong self.now) }
    {
        match self.count {
            4 => self.judge_length(),
            16 => self.judge_prev(),
            20 => self.judge_reserved(),
            count if count >= HEAD_LENGTH as u32 && count == self.total() => self.judge_sum(),
            _ => Ok(()),
        }
    }

    /// Judges the length.
    fn judge_length(&self) -> Result<(), WalkReason>
        ensures fine { OnOk result (IsLength (total self.now)) }
        ensures wrong { IfErr result (λ why. (why ≡ WalkReason.Length (total self.now)) × ¬ IsLength (total self.now)) }
    {
        let found = self.total();
        if (HEAD_LENGTH..=BODY_LIMIT + HEAD_LENGTH).contains(&(found as usize)) {
            Ok(())
        } else {
            Err(WalkReason::Length { found })
        }
    }

    /// Judges the start of the record before.
    fn judge_prev(&self) -> Result<(), WalkReason>
        ensures fine { OnOk result (field 8 8 self.now.front ≡ self.now.prev) }
        ensures wrong { IfErr result (λ why. (why ≡ WalkReason.Prev (field 8 8 self.now.front) self.now.prev) × (field 8 8 self.now.front ≢ self.now.prev)) }
    {
        let found = Lsn(LittleEndian::read_u64(&self.front[8..]));
        if found == self.prev {
            Ok(())
        } else {
            Err(WalkReason::Prev {
                found,
                expected: self.prev,
            })
        }
    }

    /// Judges the two reserved bytes.
    fn judge_reserved(&self) -> Result<(), WalkReason>
        ensures fine { OnOk result (field 18 2 self.now.front ≡ 0) }
        ensures wrong { IfErr result (λ why. (why ≡ WalkReason.Reserved) × (field 18 2 self.now.front ≢ 0)) }
    {
        if LittleEndian::read_u16(&self.front[18..]) == 0 {
            Ok(())
        } else {
            Err(WalkReason::Reserved)
        }
    }

    /// Judges the checksum.
    fn judge_sum(&self) -> Result<(), WalkReason>
        ensures fine { OnOk result (field 20 4 self.now.front ≡ full_sum self.now) }
        ensures wrong { IfErr result (λ why. (why ≡ WalkReason.Checksum (field 20 4 self.now.front) (full_sum self.now)) × (field 20 4 self.now.front ≢ full_sum self.now)) }
    {
        let found = LittleEndian::read_u32(&self.front[20..]);
        let computed = crc32c(self.sum, &self.front[..20]);
        if found == computed {
            Ok(())
        } else {
            Err(WalkReason::Checksum { found, computed })
        }
    }

    /// Takes a part of the gap after a record, in which all bytes are zero.
    fn through_gap(&mut self, bytes: &[u8]) -> Result<usize, Refusal>
        requires some { 0 < length bytes.now }
        requires room { position self.old + length bytes.now ≤ 2 ^ 63 }
        requires size { IsSegSize self.old.ident.size }
        requires outside { header_length self.old.ident.size self.old.at ≤ self.old.at % PAGE_SIZE }
        requires finished { goal self.old ≤ self.old.count }
        ensures moved { (timeline : ℕ → ℕ) (from prev : ℕ) (log : List ℕ) → Stands self.old timeline from prev log
            → Moved self.old self.new timeline from prev log bytes.now result }
        ensures took { Took self.old self.new bytes.now result }
        ensures same { IsOfOneLog self.old self.new }
    {
        let left = 8 - (self.at.0 % 8) as usize;
        let taken = left.min(bytes.len());
        if bytes[..taken].iter().any(|byte| *byte != 0) {
            return Err(Refusal {
                at: self.start(),
                why: WalkReason::Padding,
            });
        }
        self.pass_gap(taken);
        Ok(taken)
    }

    /// Goes on after so many zeros.
    fn pass_gap(&mut self, taken: usize)
        requires { position self.old + taken ≤ 2 ^ 63 }
        ensures { self.new ≡ with_gap self.old taken }
    {
        self.at = Lsn(self.at.0 + taken as u64);
    }

    /// Where the present record begins: after the page's header, where its image begins with one.
    fn start(&self) -> Lsn
        ensures { self.now.from ≤ 2 ^ 63 → result ≡ start_of self.now.ident.size self.now.from }
    {
        let place = self.from.0 % PAGE;
        let header = u64::from(header_size(self.from, self.ident.size));
        let page = self.from.0 - place;
        Lsn(page.saturating_add(place.max(header)))
    }

    /// Whether the record ends here.
    pub(crate) fn is_over(&self) -> bool
        ensures { IsTrue result ↔ IsAtEnd self.now }
    {
        self.count >= HEAD_LENGTH as u32 && self.count == self.total() && self.at.0 % 8 == 0
    }

    /// Begins the next record after the present one, which ended with the last of so many bytes, and tells its end.
    pub(crate) fn begin_next(&mut self, used: usize) -> WalkStep
        ensures ended { IsEnded result self.old.at used }
        ensures next { self.old.from ≤ 2 ^ 63 → (result ≡ WalkStep.Whole (start_of self.old.ident.size self.old.from) self.old.at used) × (self.new ≡ renewed self.old) }
        ensures same { (self.new.ident ≡ self.old.ident) × (self.new.refused ≡ self.old.refused) }
        ensures position { position self.new ≡ position self.old }
    {
        let start = self.start();
        self.prev = start;
        self.from = self.at;
        self.count = 0;
        self.sum = 0;
        WalkStep::Whole {
            start,
            end: self.at,
            used,
        }
    }

    /// Refuses from now on.
    pub(crate) fn refuse(&mut self, refusal: &Refusal) -> WalkStep
        ensures told { result ≡ WalkStep.Bad refusal.now.at refusal.now.why }
        ensures kept { self.new ≡ refusing self.old refusal.now }
    {
        self.refused = Some(*refusal);
        WalkStep::Bad {
            at: refusal.at,
            why: refusal.why,
        }
    }
}
