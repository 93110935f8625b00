ghost use Rattle.std.specs.Prelude.{◌≡◌, ◌+◌, ◌-◌, ◌%◌, ◌<◌, ◌≤◌, ℕ, List, length, drop};
ghost use Rattle.repl_lsn.specs.Segment.{IsSegSize};
ghost use Rattle.repl_page.specs.declared.ident.Ident.{Ident};
ghost use Rattle.repl_page.specs.Page.{IsPage};
ghost use Rattle.repl_record.specs.declared.answer.WalkReason.{WalkReason};
ghost use Rattle.repl_record.specs.declared.record.RecordIn.{RecordIn};
ghost use Rattle.repl_record.specs.Record.{IsImage, remaining, total_length};
ghost use Rattle.repl_walk.specs.Rest.{IsRest, IsRestBegun, IsRestFault, IsRestWhole};

use crate::rest::REST_LIMIT;

/// An image that goes on over a page's start is from there on the rest of a record, of as many bytes as the page's header
/// says, which are no more than the limit.
pub fn image_has_a_rest()
    ensures is_rest { (ident : Ident) (timeline : ℕ → ℕ) (from prev : ℕ) (item : RecordIn) (log : List ℕ) (page : ℕ) → IsSegSize ident.size → from % 8 ≡ 0
        → IsImage ident timeline from prev item log → IsPage page → from < page → page < from + length log
        → IsRest ident timeline (remaining ident.size (total_length item) from log page) page (drop (page - from) log) }
    ensures some { (ident : Ident) (timeline : ℕ → ℕ) (from prev : ℕ) (item : RecordIn) (log : List ℕ) (page : ℕ) → IsSegSize ident.size → from % 8 ≡ 0
        → IsImage ident timeline from prev item log → IsPage page → from < page → page < from + length log
        → 0 < remaining ident.size (total_length item) from log page }
    ensures limit { (ident : Ident) (timeline : ℕ → ℕ) (from prev : ℕ) (item : RecordIn) (log : List ℕ) (page : ℕ) → IsSegSize ident.size → from % 8 ≡ 0
        → IsImage ident timeline from prev item log → IsPage page → from < page → page < from + length log
        → remaining ident.size (total_length item) from log page ≤ REST_LIMIT }
{}

/// Of the rest of a record there is one answer: it ends at one position, and is not whole where it is less, and neither
/// where it has a fault.
pub fn one_rest_answer()
    ensures whole { (ident : Ident) (timeline : ℕ → ℕ) (rest from : ℕ) (log : List ℕ) (end other : ℕ) → IsRestWhole ident timeline rest from log end → IsRestWhole ident timeline rest from log other → end ≡ other }
    ensures begun { (ident : Ident) (timeline : ℕ → ℕ) (rest from : ℕ) (log : List ℕ) (end : ℕ) → IsRestWhole ident timeline rest from log end → ¬ IsRestBegun ident timeline rest from log }
    ensures fault { (ident : Ident) (timeline : ℕ → ℕ) (rest from : ℕ) (log : List ℕ) (at : ℕ) (reason : WalkReason) → IsSegSize ident.size
        → IsRestFault ident timeline rest from log at reason → ¬ IsRestBegun ident timeline rest from log }
    ensures refused { (ident : Ident) (timeline : ℕ → ℕ) (rest from : ℕ) (log : List ℕ) (at end : ℕ) (reason : WalkReason) → IsSegSize ident.size
        → IsRestFault ident timeline rest from log at reason → ¬ IsRestWhole ident timeline rest from log end }
{}
