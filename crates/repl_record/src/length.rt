ghost use Rattle.std.specs.Prelude.{◌≡◌, ◌+◌, ◌-◌, ◌%◌, ◌^◌, ◌<◌, ◌≤◌, ℕ, List, length};
ghost use Rattle.repl_lsn.specs.Segment.{IsSegSize};
ghost use Rattle.repl_page.specs.declared.ident.Ident.{Ident};
ghost use Rattle.repl_record.specs.declared.record.RecordIn.{RecordIn};
ghost use Rattle.repl_record.specs.Record.{IsImage, HeadersAreSpelled, start_of, total_length};
ghost use Rattle.repl_record.specs.Length.{CanBegin, image_end, image_length};

use crate::record::{BODY_LIMIT, HEAD_LENGTH};
use repl_lsn::{Lsn, SegSize};
use repl_page::{PAGE_SIZE, header_size};

/// The size of a page as positions count.
const PAGE: u64 = PAGE_SIZE as u64;

/// Where the image of a record with a body of so many bytes ends that is laid out at this position, in a log with
/// segments of this size. So its length is known before there is a record: it is the distance to here.
pub fn image_end(at: Lsn, body_length: usize, size: SegSize) -> Lsn
    requires below { at ≤ 2 ^ 62 }
    requires short { body_length ≤ BODY_LIMIT }
    ensures { result ≡ image_end size at body_length }
{
    let mut position = at;
    let mut left = HEAD_LENGTH + body_length;
    while left > 0 {
        let start = start_past(position, size);
        let count = left_on_page(start).min(left);
        position = Lsn(start.0 + count as u64);
        left -= count;
    }
    Lsn(position.0.next_multiple_of(8))
}

/// Where the record begins that is laid from here on.
pub(crate) fn start_past(at: Lsn, size: SegSize) -> Lsn
    requires { at ≤ 2 ^ 63 }
    ensures value { result ≡ start_of size at }
    ensures size { IsSegSize size }
{
    let offset = at.0 % PAGE;
    let header = u64::from(header_size(at, size));
    if offset < header {
        Lsn(at.0 - offset + header)
    } else {
        at
    }
}

/// How many bytes the page has from this position on.
fn left_on_page(position: Lsn) -> usize
    ensures { result + position % PAGE_SIZE ≡ PAGE_SIZE }
{
    (PAGE - position.0 % PAGE) as usize
}

/// How long an image is, and where it ends, depends on the length of the item's body, the place and the size of segments
/// alone. So all images of items with bodies of one length at one place end at one position.
pub fn one_length()
    ensures length { (ident : Ident) (timeline : ℕ → ℕ) (from prev : ℕ) (item : RecordIn) (log : List ℕ) → IsSegSize ident.size
        → IsImage ident timeline from prev item log → length log ≡ image_length ident.size from (length item.body) }
    ensures end { (ident : Ident) (timeline : ℕ → ℕ) (from prev : ℕ) (item : RecordIn) (log : List ℕ) → IsSegSize ident.size
        → IsImage ident timeline from prev item log → from + length log ≡ image_end ident.size from (length item.body) }
{}

/// Where the headers of pages are spelled, an item has one image at a place after one record on one path: whoever lays
/// it out there lays the same bytes.
pub fn one_image()
    ensures { (ident : Ident) (timeline : ℕ → ℕ) (from prev : ℕ) (item : RecordIn) (a b : List ℕ) → IsSegSize ident.size → CanBegin ident.size from
        → IsImage ident timeline from prev item a → HeadersAreSpelled ident timeline (total_length item) from a
        → IsImage ident timeline from prev item b → HeadersAreSpelled ident timeline (total_length item) from b → a ≡ b }
{}

/// Where an image ends, the next one can begin: at a multiple of 8, and not within a page's header.
pub fn image_ends_where_one_begins()
    ensures rounded { (size at body_length : ℕ) → image_end size at body_length % 8 ≡ 0 }
    ensures can_begin { (size at body_length : ℕ) → IsSegSize size → CanBegin size (image_end size at body_length) }
{}

/// An image is no shorter than the body and the record's 24 bytes before it, and that of a longer body ends no earlier.
pub fn longer_ends_later()
    ensures least { (size at body_length : ℕ) → at + 24 + body_length ≤ image_end size at body_length }
    ensures later { (size at shorter longer : ℕ) → shorter ≤ longer → image_end size at shorter ≤ image_end size at longer }
{}
