ghost use Rattle.std.specs.Prelude.{◌≡◌, ℕ, ◌+◌, ◌-◌, ◌%◌, ◌^◌, ◌<◌, ◌≤◌, ◌⊎◌, ◌↔◌, ◌++◌, [], length, take, replicate, Err, IfOk, IfErr, OnOk};
ghost use Rattle.byteorder.specs.Endian.{little_bytes};
ghost use Rattle.repl_lsn.specs.Segment.{IsSegSize};
ghost use Rattle.repl_record.specs.Record.{AreBytes, IsRecord, IsImage, HeadersAreSpelled, front_bytes, start_of, total_length};
ghost use Rattle.repl_record.specs.Length.{image_end};
ghost use Rattle.repl_record.specs.Checksum.{checksum};
ghost use Rattle.repl_record.specs.Laying.{AreFields, IsLaid, content_of, due_header};

use crate::checksum::crc32c;
use crate::length::start_past;
use crate::record::{BODY_LIMIT, HEAD_LENGTH, Laid, RecordIn, RecordRefusal};
use byteorder::{ByteOrder, LittleEndian};
use bytes::Bytes;
use repl_lsn::{Lsn, Tli};
use repl_page::{HEADER_LIMIT, Ident, PAGE_SIZE, header_size, write_header, written_agrees};
use std::alloc::{AllocError, Global};

/// How many bytes of a record stand before its checksum.
const FRONT_LENGTH: usize = 20;

/// What images are rounded up to a multiple of.
const ROUNDING: usize = 8;

/// The log from where a record is laid on.
#[derive(Drop)]
struct Place {
    ident: Ident,
    tli: Tli,
    at: Lsn,
    /// The record's length.
    total: u32,
}

/// The record as it stands in the log from `at` on, after the record that starts at `prev` (0 for the log's first), on
/// this timeline. The bytes begin with the page's header where a page starts there, and end at the next multiple of 8
/// after the record. Takes memory for them, once.
pub fn lay_out(
    alloc: Global,
    at: Lsn,
    prev: Lsn,
    tli: Tli,
    ident: &Ident,
    item: &RecordIn,
) -> Result<Laid, RecordRefusal>
    requires aligned { at % 8 ≡ 0 }
    requires below { at ≤ 2 ^ 62 }
    // The bytes are the record's image, in the one spelling of its pages' headers.
    ensures image { IfOk result (λ laid. IsImage ident.now (λ _. tli) at prev item.now laid.bytes) }
    ensures spelled { IfOk result (λ laid. HeadersAreSpelled ident.now (λ _. tli) (total_length item.now) at laid.bytes) }
    ensures start { IfOk result (λ laid. laid.start ≡ start_of ident.now.size at) }
    ensures end { IfOk result (λ laid. laid.end ≡ at + length laid.bytes) }
    // Where they end depends on the length of the item's body, the place and the size of segments alone.
    ensures length { IfOk result (λ laid. laid.end ≡ image_end ident.now.size at (length item.now.body)) }
    // A body is refused exactly where it is too long.
    ensures too_long { (result ≡ Err (RecordRefusal.TooLong (length item.now.body))) ↔ (BODY_LIMIT < length item.now.body) }
    ensures only { IfErr result (λ refusal. refusal ≡ RecordRefusal.Memory ⊎ refusal ≡ RecordRefusal.TooLong (length item.now.body)) }
{
    let body = item.body.as_slice();
    if body.len() > BODY_LIMIT {
        return Err(RecordRefusal::TooLong {
            len: body.len() as u64,
        });
    }
    let total = HEAD_LENGTH + body.len();
    let place = Place {
        ident: *ident,
        tli,
        at,
        total: total as u32,
    };
    read_fields(prev, tli, ident, item);
    let mut head = [0; HEAD_LENGTH];
    write_head(prev, item, &mut head);
    let mut out = Vec::with_capacity(alloc, room_for(total))?;
    put(&mut out, &place, 0, &head)?;
    put(&mut out, &place, HEAD_LENGTH as u32, body)?;
    round_up(&mut out)?;
    let end = position_past(&place, &out);
    written_agrees();
    Ok(Laid {
        bytes: Bytes::from_vec(out)?,
        start: start_past(at, ident.size),
        end,
    })
}

/// What a record and the headers of its pages say fits the fields, which is known where it is read.
fn read_fields(prev: Lsn, tli: Tli, ident: &Ident, item: &RecordIn)
    requires { length item.now.body ≤ BODY_LIMIT }
    ensures item { IsRecord item.now }
    ensures follows { prev < 2 ^ 64 }
    ensures headers { AreFields ident.now tli }
{
    let _sysid = ident.sysid;
    let _magic = ident.magic;
    let _size = ident.size.bytes();
    let _tli = tli.0;
    let _prev = prev.0;
    let _xid = item.xid;
    let _info = item.info;
    let _rmid = item.rmid;
    read_bytes(item.body.as_slice());
}

/// Each is one byte.
fn read_bytes(bytes: &[u8])
    ensures { AreBytes bytes.now }
{}

/// At least as many bytes as the image of a record of this length has.
fn room_for(total: usize) -> usize
    requires { total ≤ 2 ^ 32 }
{
    let page_size = PAGE_SIZE as usize;
    let pages = total / (page_size - HEADER_LIMIT) + 2;
    total + pages * HEADER_LIMIT + ROUNDING
}

/// Fills `head` with what stands before the record's body.
fn write_head(prev: Lsn, item: &RecordIn, head: &mut [u8])
    requires room { length head.old ≡ 24 }
    requires short { length item.now.body ≤ BODY_LIMIT }
    ensures { head.new ≡ front_bytes prev item.now ++ little_bytes 4 (checksum (item.now.body ++ front_bytes prev item.now)) }
{
    write_front(prev, item, &mut head[..FRONT_LENGTH]);
    let sum = crc32c(crc32c(0, item.body.as_slice()), &head[..FRONT_LENGTH]);
    LittleEndian::write_u32(&mut head[FRONT_LENGTH..], sum);
}

/// Fills `front` with what stands before the record's checksum.
fn write_front(prev: Lsn, item: &RecordIn, front: &mut [u8])
    requires room { length front.old ≡ 20 }
    requires short { length item.now.body ≤ BODY_LIMIT }
    ensures { front.new ≡ front_bytes prev item.now }
{
    let total = HEAD_LENGTH + item.body.len();
    LittleEndian::write_u32(front, total as u32);
    LittleEndian::write_u32(&mut front[4..], item.xid);
    LittleEndian::write_u64(&mut front[8..], prev.0);
    front[16] = item.info;
    front[17] = item.rmid;
    front[18] = 0;
    front[19] = 0;
}

/// Appends these bytes of the record, which follow `done` others, with the headers of the pages that begin before them
/// and among them. Where there is no memory, some may be appended.
fn put(out: &mut Vec<u8>, place: &Place, done: u32, piece: &[u8]) -> Result<(), AllocError>
    requires size { IsSegSize place.now.ident.size }
    requires at { place.now.at ≤ 2 ^ 62 }
    requires laid { IsLaid place.now out.old.items }
    requires done { done ≡ length (content_of place.now out.old.items) }
    requires fits { done + length piece.now ≤ place.now.total }
    ensures laid { OnOk result (IsLaid place.now out.new.items) }
    ensures bytes { OnOk result (content_of place.now out.new.items ≡ content_of place.now out.old.items ++ piece.now) }
{
    let mut laid = done;
    let mut rest = piece;
    while !rest.is_empty() {
        put_header(out, place, laid)?;
        let count = room_on_page(place, out).min(rest.len());
        out.extend_from_slice(&rest[..count])?;
        laid += count as u32;
        rest = &rest[count..];
    }
    Ok(())
}

/// Appends what is due of the header of the page on which the bytes end, before more of the record, of which `done`
/// bytes are laid.
fn put_header(out: &mut Vec<u8>, place: &Place, done: u32) -> Result<(), AllocError>
    requires at { place.now.at ≤ 2 ^ 62 }
    requires fits { done ≤ place.now.total }
    ensures { OnOk result (out.new.items ≡ out.old.items ++ due_header place.now done out.old.items) }
{
    let position = position_past(place, out);
    let offset = position.0 % u64::from(PAGE_SIZE);
    let page = Lsn(position.0 - offset);
    let size = header_size(page, place.ident.size);
    if offset >= u64::from(size) {
        return Ok(());
    }
    let remaining = if out.is_empty() {
        0
    } else {
        place.total - done
    };
    let header = place.ident.header(place.tli, page, remaining);
    let mut room = [0; HEADER_LIMIT];
    write_header(&header, &mut room[..size as usize]);
    out.extend_from_slice(&room[offset as usize..size as usize])
}

/// The position after the bytes.
fn position_past(place: &Place, out: &Vec<u8>) -> Lsn
    requires { place.now.at ≤ 2 ^ 62 }
    ensures { result ≡ place.now.at + length out.now.items }
{
    let laid = out.as_slice();
    Lsn(place.at.0 + laid.len() as u64)
}

/// How many bytes the page has from their end on.
fn room_on_page(place: &Place, out: &Vec<u8>) -> usize
    requires { place.now.at ≤ 2 ^ 62 }
    ensures { result + (place.now.at + length out.now.items) % PAGE_SIZE ≡ PAGE_SIZE }
{
    let page_size = u64::from(PAGE_SIZE);
    let room = page_size - position_past(place, out).0 % page_size;
    room as usize
}

/// Appends zeros up to the next multiple of 8.
fn round_up(out: &mut Vec<u8>) -> Result<(), AllocError>
    ensures { OnOk result ((gap : ℕ) × (gap < 8) × (out.new.items ≡ out.old.items ++ replicate gap 0) × (length out.new.items % 8 ≡ 0)) }
{
    let end = out.as_slice().len().next_multiple_of(ROUNDING);
    out.resize(end, 0)
}
