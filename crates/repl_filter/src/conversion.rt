//! The conversion of an input.
ghost use Rattle.std.specs.Prelude.{◌≡◌, List, ℕ, Ok, Err};
ghost use Rattle.repl_filter.specs.Converting.{Conversion, ended};

use crate::converter::{Converter, Refused};
use crate::gather::{Stop, gather};
use repl_io::{Sent, Sink, Source, write_all};
use std::alloc::Global;

/// How the conversion of an input ended.
#[derive(Clone, Copy, Debug, PartialEq, Eq)]
pub enum Converted {
    /// The whole text was written.
    Done,
    /// The input is wrong here.
    Refused(u64),
    /// The source is faulty.
    ReadFault,
    /// The sink is faulty.
    WriteFault,
    /// The source gave nothing at too many reads: 2^62.
    TurnsSpent,
    /// There is no memory.
    Memory,
}

/// Reads the input, up to the converter's limit, and writes the text for what it says. Takes memory for the input, and what
/// the converter takes.
pub fn convert<S: Source, K: Sink, C: Converter>(
    alloc: Global,
    converter: &C,
    input: &mut S,
    out: &mut K,
) -> Converted
    ensures { Conversion (C.limit converter.now) (C.says converter.now) (C.text converter.now) (C.is_wrong converter.now)
        result (S.source input.old) (S.source input.new) (K.sink out.old) (K.sink out.new) }
{
    let bytes = match gather(alloc, input, converter.limit()) {
        Ok(bytes) => bytes,
        Err(Stop::ReadFault) => return Converted::ReadFault,
        Err(Stop::TurnsSpent) => return Converted::TurnsSpent,
        Err(Stop::Memory) => return Converted::Memory,
    };
    match converter.convert(alloc, &bytes) {
        Ok(text) => ended(write_all(out, &text)),
        Err(Refused::At(place)) => Converted::Refused(place),
        Err(Refused::Memory) => Converted::Memory,
    }
}

/// How the conversion ends where the writing of its text ended so.
fn ended(sent: Sent) -> Converted
    ensures { result ≡ ended sent }
{
    match sent {
        Sent::All => Converted::Done,
        Sent::Failed => Converted::WriteFault,
        Sent::Memory => Converted::Memory,
    }
}
