ghost use Rattle.std.specs.Prelude.{◌≡◌, ◌≢◌, ◌+◌, ◌%◌, ◌^◌, ◌<◌, ◌≤◌, ◌++◌, ℕ, List, [], length, min, slice_index, take};
ghost use Rattle.repl_lsn.specs.Segment.{IsSegSize};
ghost use Rattle.repl_page.specs.Header.{Agrees, field, header_of};
ghost use Rattle.repl_page.specs.Page.{header_length};
ghost use Rattle.repl_record.specs.Walker.{AreOn};
ghost use Rattle.repl_walk.specs.Rest.{HasPassed, RestAnswers, RestGoesOn, RestTakes, rest_identity, rest_position};

use byteorder::{ByteOrder, LittleEndian};
use repl_lsn::{Lsn, Tli};
use repl_page::{PAGE_SIZE, check_header, header_size};
use repl_record::{BODY_LIMIT, Ident, WalkReason};

/// The most bytes of a record that are not on the page where it begins: at least eight of its 24 and its body's are there.
pub const REST_LIMIT: u32 = BODY_LIMIT as u32 + 16;

const _: () = prove!(REST_LIMIT == 1_048_592);

/// The size of a page as lengths count.
const PAGE: usize = PAGE_SIZE as usize;

/// What is answered of the rest of a record.
#[derive(Clone, Copy, Debug, PartialEq, Eq)]
pub enum RestStep {
    /// It is whole.
    Whole {
        /// The position after it, where the next record's image begins.
        end: Lsn,
        /// How many of the bytes were taken. Those after are the next record's.
        used: usize,
    },
    /// All bytes were taken, and it goes on.
    Short,
    /// No rest of a record goes on so.
    Bad {
        /// The page's address, or, for a byte after the rest, where the rest begins.
        at: Lsn,
        why: WalkReason,
    },
}

/// How many bytes of an earlier page's record a page's header says to come: at most as many as there can be.
pub fn rest_on_page(header: &[u8]) -> u32
    requires { 24 ≤ length header.now }
    ensures { result ≡ min (field 16 4 header.now) REST_LIMIT }
{
    LittleEndian::read_u32(&header[16..]).min(REST_LIMIT)
}

/// Goes over the rest of a record, of which the beginning stood on pages that are gone, page by page. Takes no memory.
#[derive(Clone, Copy, Debug)]
pub struct Rest {
    ident: Ident,
    /// The address of the page with which the rest begins.
    from: Lsn,
    /// The address of the next page.
    at: Lsn,
    /// How many of the record's bytes are still to come.
    left: u32,
}

impl Rest {
    /// The rest of so many bytes with which the page at this address begins.
    pub fn new(from: Lsn, ident: Ident, left: u32) -> Rest
        requires page { from % PAGE_SIZE ≡ 0 }
        requires some { 0 < left }
        ensures passed { (timeline : ℕ → ℕ) → HasPassed result timeline left from [] }
        ensures ident { rest_identity result ≡ ident }
        ensures position { rest_position result ≡ from }
    {
        Rest {
            ident,
            from,
            at: from,
            left,
        }
    }

    /// Takes the next bytes, which begin with a page and end with one, or with the log. Pages that begin in them are on
    /// this timeline.
    pub fn step(&mut self, tli: Tli, bytes: &[u8]) -> RestStep
        requires { rest_position self.old + length bytes.now ≤ 2 ^ 63 }
        // What is answered is so of all bytes from the first page's on.
        ensures answers { (timeline : ℕ → ℕ) (rest from : ℕ) (log : List ℕ) → HasPassed self.old timeline rest from log → AreOn timeline tli (rest_position self.old) (length bytes.now)
            → RestAnswers (rest_identity self.old) timeline rest from (log ++ bytes.now) result }
        ensures goes_on { (timeline : ℕ → ℕ) (rest from : ℕ) (log : List ℕ) → HasPassed self.old timeline rest from log → AreOn timeline tli (rest_position self.old) (length bytes.now)
            → RestGoesOn self.new timeline rest from log bytes.now result }
        ensures takes { RestTakes (length bytes.now) result }
        ensures ident { rest_identity self.new ≡ rest_identity self.old }
    {
        let mut used = 0;
        'pages: while used < bytes.len() {
            let page = &bytes[used..bytes.len().min(used + PAGE)];
            match self.through_page(tli, page) {
                RestStep::Short => used += page.len(),
                RestStep::Whole { end, used: on_page } => {
                    return RestStep::Whole {
                        end,
                        used: used + on_page,
                    };
                }
                RestStep::Bad { at, why } => return RestStep::Bad { at, why },
            }
        }
        RestStep::Short
    }

    /// Takes the bytes of a page, or the first of them.
    fn through_page(&mut self, tli: Tli, page: &[u8]) -> RestStep
        requires some { 0 < length page.now }
        requires fits { length page.now ≤ PAGE_SIZE }
        requires room { rest_position self.old + length page.now ≤ 2 ^ 63 }
        ensures answers { (timeline : ℕ → ℕ) (rest from : ℕ) (log : List ℕ) → HasPassed self.old timeline rest from log → timeline (rest_position self.old) ≡ tli
            → RestAnswers (rest_identity self.old) timeline rest from (log ++ page.now) result }
        ensures goes_on { (timeline : ℕ → ℕ) (rest from : ℕ) (log : List ℕ) → HasPassed self.old timeline rest from log → timeline (rest_position self.old) ≡ tli
            → RestGoesOn self.new timeline rest from log page.now result }
        ensures takes { RestTakes (length page.now) result }
        ensures ident { rest_identity self.new ≡ rest_identity self.old }
        ensures position { result ≡ RestStep.Short → rest_position self.new ≤ rest_position self.old + length page.now }
    {
        let header = header_size(self.at, self.ident.size) as usize;
        if page.len() < header {
            return RestStep::Short;
        }
        let due = self.ident.header(tli, self.at, self.left);
        match check_header(&due, &page[..header]) {
            Ok(()) => self.through_bytes(tli, header, page),
            Err(fault) => RestStep::Bad {
                at: self.at,
                why: WalkReason::Page(fault),
            },
        }
    }

    /// Takes what stands on the page after its header, which is the one that is due.
    fn through_bytes(&mut self, tli: Tli, header: usize, page: &[u8]) -> RestStep
        requires size { IsSegSize self.old.ident.size }
        requires header { header ≡ header_length self.old.ident.size self.old.at }
        requires whole { header ≤ length page.now }
        requires fits { length page.now ≤ PAGE_SIZE }
        requires room { rest_position self.old + length page.now ≤ 2 ^ 63 }
        requires agrees { Agrees (header_of self.old.ident tli self.old.at self.old.left) (take header page.now) }
        ensures answers { (timeline : ℕ → ℕ) (rest from : ℕ) (log : List ℕ) → HasPassed self.old timeline rest from log → timeline (rest_position self.old) ≡ tli
            → RestAnswers (rest_identity self.old) timeline rest from (log ++ page.now) result }
        ensures goes_on { (timeline : ℕ → ℕ) (rest from : ℕ) (log : List ℕ) → HasPassed self.old timeline rest from log → timeline (rest_position self.old) ≡ tli
            → RestGoesOn self.new timeline rest from log page.now result }
        ensures takes { RestTakes (length page.now) result }
        ensures ident { rest_identity self.new ≡ rest_identity self.old }
        ensures position { result ≡ RestStep.Short → rest_position self.new ≤ rest_position self.old + length page.now }
    {
        let room = page.len() - header;
        let left = self.left as usize;
        if room < left {
            self.left -= room as u32;
            self.at = Lsn(self.at.0 + page.len() as u64);
            return RestStep::Short;
        }
        let last = header + left;
        let end = last.next_multiple_of(8);
        let gap = &page[last..end.min(page.len())];
        if first_set(gap) < gap.len() {
            return RestStep::Bad {
                at: self.from,
                why: WalkReason::Padding,
            };
        }
        if page.len() < end {
            return RestStep::Short;
        }
        RestStep::Whole {
            end: Lsn(self.at.0 + end as u64),
            used: end,
        }
    }
}

/// Where the first byte stands that is not zero; where there is none, after the last.
fn first_set(bytes: &[u8]) -> usize
    ensures within { result ≤ length bytes.now }
    ensures before { (k : ℕ) → k < result → slice_index bytes.now k ≡ 0 }
    ensures found { result < length bytes.now → slice_index bytes.now result ≢ 0 }
{
    for (place, byte) in bytes.iter().enumerate() {
        if *byte != 0 {
            return place;
        }
    }
    bytes.len()
}
