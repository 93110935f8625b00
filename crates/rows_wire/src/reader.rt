//! Messages out of pieces of a stream.
ghost use Rattle.std.specs.Prelude.{OnOk};
ghost use Rattle.repl_wire.specs.Reader.{Waits};

use repl_wire::{FrameReader, Message, PIECE_LIMIT, Side, Step, WireFault, length_of};
use rows_table::{Answer, Call, Miss, joined, number, said, text};
use std::alloc::{AllocError, Global};

pub fn answer(alloc: Global, call: &Call) -> Answer {
    if let Some([side, size, bytes]) = call.words("read") {
        return read_of(alloc, side, size, bytes);
    }
    if let Some([side, first, last, bytes]) = call.words("read_in") {
        return read_in(alloc, side, bytes, (first, last));
    }
    if let Some([side, bytes]) = call.words("fronts") {
        return fronts(alloc, side, bytes);
    }
    Err(Miss::Call)
}

fn read_of(alloc: Global, side: &[u8], size: &[u8], bytes: &[u8]) -> Answer {
    let Ok(size) = usize::try_from(number(size)?) else {
        return Err(Miss::Words);
    };
    read(alloc, side_of(side)?, bytes, size)
}

fn side_of(word: &[u8]) -> Result<Side, Miss> {
    match text(word)? {
        "front" => Ok(Side::Front),
        "back" => Ok(Side::Back),
        _ => Err(Miss::Words),
    }
}

/// Why a reader gives no more messages.
#[derive(Drop)]
enum End {
    Refused(WireFault),
    Memory,
}

impl From<AllocError> for End {
    fn from(_error: AllocError) -> End {
        End::Memory
    }
}

/// Tells the length fields of the messages that a reader gives, until it waits.
fn drain(alloc: Global, reader: &mut FrameReader, told: &mut Vec<u8>) -> Result<(), End>
    ensures { OnOk result (Waits reader.new) }
{
    for _ in 0..u64::MAX {
        match reader.next(alloc) {
            Step::Message(message) => {
                tell(alloc, &message, told)?;
            }
            Step::NeedMore => return Ok(()),
            Step::Refused(fault) => return Err(End::Refused(fault)),
            Step::Memory => return Err(End::Memory),
        }
    }
    Err(End::Memory)
}

fn tell(alloc: Global, message: &Message, told: &mut Vec<u8>) -> Result<(), AllocError> {
    let length = format!(in alloc; "{} ", length_of(message))?;
    told.extend_from_slice(length.as_bytes())
}

/// Tells those of these bytes, fed in pieces of this many.
fn feed(
    alloc: Global,
    reader: &mut FrameReader,
    bytes: &[u8],
    size: usize,
    told: &mut Vec<u8>,
) -> Result<(), End> {
    for piece in bytes.chunks(size.clamp(1, PIECE_LIMIT)) {
        drain(alloc, reader, told)?;
        if piece.len() <= PIECE_LIMIT {
            reader.feed(piece);
        }
    }
    drain(alloc, reader, told)
}

/// The length fields of the messages of these bytes, and then where the reader stands and whether it holds bytes, or
/// what it refuses and, asked once more, refuses again.
fn read(alloc: Global, side: Side, bytes: &[u8], size: usize) -> Answer {
    let mut reader = FrameReader::new(alloc, side)?;
    let mut told = Vec::new(alloc);
    let line = match feed(alloc, &mut reader, bytes, size, &mut told) {
        Ok(()) => waiting(alloc, &reader)?,
        Err(End::Refused(fault)) => refused(alloc, &mut reader, fault)?,
        Err(End::Memory) => return Err(Miss::Memory),
    };
    told.extend_from_slice(line.as_bytes())?;
    Ok(told)
}

/// Where a reader that waits stands, and whether it holds bytes.
fn waiting(alloc: Global, reader: &FrameReader) -> Result<String, AllocError> {
    let place = reader.place();
    if reader.is_empty() {
        format!(in alloc; "at {place}")
    } else {
        format!(in alloc; "at {place} and more")
    }
}

/// What a reader refused, and what it refuses once more.
fn refused(
    alloc: Global,
    reader: &mut FrameReader,
    fault: WireFault,
) -> Result<String, AllocError> {
    match reader.next(alloc) {
        Step::Refused(again) => format!(in alloc; "{fault:?} {again:?}"),
        _ => format!(in alloc; "{fault:?} and another answer"),
    }
}

/// What each size of pieces tells, where all tell the same.
fn read_in(alloc: Global, side: &[u8], bytes: &[u8], sizes: (&[u8], &[u8])) -> Answer {
    let side = side_of(side)?;
    let (first, last) = (number(sizes.0)?, number(sizes.1)?);
    if first > last || last > 8192 {
        return Err(Miss::Words);
    }
    let wanted = read(alloc, side, bytes, first as usize)?;
    for size in first..last {
        if read(alloc, side, bytes, size as usize + 1)? != wanted {
            return Ok(format!(in alloc; "another answer past {size}")?.into_bytes());
        }
    }
    let head = format!(in alloc; "each of {}:", last - first + 1)?;
    joined(alloc, &[head.as_bytes(), &wanted])
}

/// Whether no front of a message that is not all of it gives a message, in pieces of five bytes.
fn fronts(alloc: Global, side: &[u8], bytes: &[u8]) -> Answer {
    let side = side_of(side)?;
    for end in 0..bytes.len() {
        let mut reader = FrameReader::new(alloc, side)?;
        let mut told = Vec::new(alloc);
        if feed(alloc, &mut reader, &bytes[..end], 5, &mut told).is_err() || !told.is_empty() {
            return said(alloc, "another answer");
        }
    }
    Ok(format!(in alloc; "all {} wait", bytes.len())?.into_bytes())
}
