//! Checksums of records, and how records are laid out.
ghost use Rattle.std.specs.Prelude.{◌≡◌, ◌%◌, ◌^◌, ◌≤◌, IfOk};

use bytes::Bytes;
use repl_lsn::{Lsn, SegSize, Tli};
use repl_record::{Ident, Laid, RecordIn, RecordRefusal, crc32c, lay_out};
use rows_table::{Answer, Call, Miss, debug, number, short};
use std::alloc::Global;

pub fn answer(alloc: Global, call: &Call) -> Answer {
    if let Some([before, bytes]) = call.words("crc32c") {
        return checksum(alloc, before, bytes);
    }
    if let Some([bytes]) = call.words("crc32c_pieces") {
        return crc32c_pieces(alloc, bytes);
    }
    if let Some([at, prev, fields, body]) = call.words("lay_out") {
        return told_of(alloc, [at, prev, fields, body]);
    }
    if let Some([from, end, at, prev, fields, body]) = call.words("laid") {
        return part_of(alloc, [at, prev, fields, body], from, end);
    }
    if let Some([count, body]) = call.words("chain") {
        return chain(alloc, count, body);
    }
    Err(Miss::Call)
}

fn checksum(alloc: Global, before: &[u8], bytes: &[u8]) -> Answer {
    let sum = crc32c(short(before)?, bytes);
    Ok(format!(in alloc; "0x{sum:x}")?.into_bytes())
}

/// What is laid for a record of these words.
fn lay_of(alloc: Global, words: [&[u8]; 4]) -> Result<Result<Laid, RecordRefusal>, Miss> {
    let [at, prev, fields, body] = words;
    let (prev, fields) = (Lsn(number(prev)?), number(fields)?);
    lay(alloc, place(number(at)?)?, prev, fields, body)
}

fn told_of(alloc: Global, words: [&[u8]; 4]) -> Answer {
    told(alloc, lay_of(alloc, words)?)
}

fn part_of(alloc: Global, words: [&[u8]; 4], from: &[u8], end: &[u8]) -> Answer {
    let (from, end) = (number(from)?, number(end)?);
    part(alloc, lay_of(alloc, words)?, from, end)
}

/// The checksum over two pieces, where it is the same wherever the first ends.
fn crc32c_pieces(alloc: Global, bytes: &[u8]) -> Answer {
    let whole = crc32c(0, bytes);
    for cut in 0..=bytes.len() {
        let (first, second) = bytes.split_at(cut);
        if crc32c(crc32c(0, first), second) != whole {
            return Ok(format!(in alloc; "another at {cut}")?.into_bytes());
        }
    }
    Ok(format!(in alloc; "each cut 0x{whole:x}")?.into_bytes())
}

/// What the logs of the table have on each of their first pages.
pub fn ident() -> Result<Ident, Miss> {
    Ok(Ident {
        sysid: 7,
        magic: 0xd116,
        size: SegSize::new(1 << 24).ok_or(Miss::Call)?,
    })
}

/// A position at which a record may be laid.
pub fn place(at: u64) -> Result<Lsn, Miss>
    ensures { IfOk result (λ at. (at % 8 ≡ 0) × (at ≤ 2 ^ 62)) }
{
    if at % 8 == 0 && at <= 1 << 62 {
        Ok(Lsn(at))
    } else {
        Err(Miss::Words)
    }
}

/// A record with this body, laid at the position after the record that starts at `prev`. Where the fields are 0, its
/// transaction, its info and its resource manager are 0, and else 3, 1 and 2.
pub fn lay(
    alloc: Global,
    at: Lsn,
    prev: Lsn,
    fields: u64,
    body: &[u8],
) -> Result<Result<Laid, RecordRefusal>, Miss>
    requires aligned { at % 8 ≡ 0 }
    requires below { at ≤ 2 ^ 62 }
{
    let (xid, info, rmid) = if fields == 0 { (0, 0, 0) } else { (3, 1, 2) };
    let item = RecordIn {
        xid,
        info,
        rmid,
        body: Bytes::copy_from_slice(alloc, body)?,
    };
    Ok(lay_out(alloc, at, prev, Tli(1), &ident()?, &item))
}

/// Where the record starts and ends, and how many bytes are laid for it.
fn told(alloc: Global, laid: Result<Laid, RecordRefusal>) -> Answer {
    match laid {
        Ok(laid) => {
            let (start, end, count) = (laid.start.0, laid.end.0, laid.bytes.len());
            Ok(format!(in alloc; "0x{start:x} 0x{end:x} {count}")?.into_bytes())
        }
        Err(refusal) => debug(alloc, &refusal),
    }
}

/// A part of the bytes that are laid.
fn part(alloc: Global, laid: Result<Laid, RecordRefusal>, from: u64, end: u64) -> Answer {
    match laid {
        Ok(laid) => match laid.bytes.as_slice().get(from as usize..end as usize) {
            Some(part) => Ok(part.to_vec(alloc)?),
            None => Err(Miss::Words),
        },
        Err(refusal) => debug(alloc, &refusal),
    }
}

/// Where so many records with this body end, the first at 0/1000000, and where one without a body starts after them.
fn chain(alloc: Global, count: &[u8], body: &[u8]) -> Answer {
    let mut at = 0x100_0000;
    let mut prev = Lsn(0);
    for _ in 0..number(count)? {
        match lay(alloc, place(at)?, prev, 3, body)? {
            Ok(laid) => {
                at = laid.end.0;
                prev = laid.start;
            }
            Err(refusal) => return debug(alloc, &refusal),
        }
    }
    told(alloc, lay(alloc, place(at)?, prev, 3, &[])?)
}
