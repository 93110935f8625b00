//! The messages of a stream, line by line.
ghost use Rattle.std.specs.Prelude.{◌≡◌, ◌≢◌, ◌≤◌, ◌⊎◌, ◌∷◌, [], ◌++◌, length, IfErr, OnOk};
ghost use Rattle.repl_effects.specs.Counts.{RoseExactly, Stood};
ghost use Rattle.repl_filter.specs.Converting.{is_read_fault, is_write_fault};
ghost use Rattle.repl_filter.specs.Outcome.{Wrote};
ghost use Rattle.repl_message.specs.Message.{length_field};
ghost use Rattle.repl_wire.specs.Reader.{Waits, fed};
ghost use Rattle.repl_filter.specs.declared.conversion.Converted.TheVariants as converted;
ghost use Rattle.repl_print.specs.Frames.{Framed, Printed, kind_text, line};
ghost use Rattle.repl_print.specs.Printing.{GivesLines, Drains, PieceEnds};

use itoa::Buffer;
use repl_filter::Converted;
use repl_io::{Got, Sent, Sink, Source, write_all};
use repl_wire::{
    Back, FrameReader, Front, MESSAGE_LIMIT, Message, PIECE_LIMIT, Side, Step, WireFault, length_of,
};
use std::alloc::{AllocError, Global};

/// The most reads of an input without a bound.
const FRAME_TURNS: u64 = 1 << 62;

/// How the messages that a reader holds came to an end.
#[derive(Drop, PartialEq)]
enum Drained {
    /// The reader waits for more.
    Waits,
    /// The reader refuses what it holds at this place of the input.
    Refused(u64),
    Memory,
}

/// Prints a line for each message that this side sends: the place of its first byte, from 0, its type byte, or `-`
/// for a startup packet, and the value of its length field. The input may be of any length, and the memory that
/// is taken does not grow with it.
///
/// `Refused` has the place of the first byte with which no message goes on, or that of the message in which the input ends;
/// the messages before it are printed. Where a read fails, or time is spent, each message that was read whole is printed.
pub fn frames<S: Source, K: Sink>(
    alloc: Global,
    side: Side,
    input: &mut S,
    out: &mut K,
) -> Converted
    ensures { Framed side result (S.source input.old) (S.source input.new) (K.sink out.old) (K.sink out.new) }
{
    print_messages(alloc, side, input, out)
}

/// Reads the input piece by piece, and writes the lines of the messages that each piece makes whole.
fn print_messages<S: Source, K: Sink>(
    alloc: Global,
    side: Side,
    input: &mut S,
    out: &mut K,
) -> Converted
    ensures ends { Printed side result (S.source input.old) (S.source input.new) (K.sink out.old) (K.sink out.new) }
    ensures read_fault { RoseExactly (is_read_fault result) (S.source input.old).faults (S.source input.new).faults }
    ensures write_fault { RoseExactly (is_write_fault result) (K.sink out.old).faults (K.sink out.new).faults }
{
    let Ok(mut reader) = FrameReader::new(alloc, side) else {
        return Converted::Memory;
    };
    let mut lines = Vec::new(alloc);
    let mut room = [0; PIECE_LIMIT];
    for _ in 0..FRAME_TURNS {
        match input.read(&mut room) {
            Got::Bytes(count) => {
                let printed = print_piece(alloc, &mut reader, &room[..count], &mut lines, out);
                if let Err(end) = printed {
                    return end;
                }
            }
            Got::Quiet => {}
            Got::End => return end_of_input(&reader),
            Got::Failed => return Converted::ReadFault,
        }
    }
    Converted::TurnsSpent
}

/// How the printing ends at the end of the input.
fn end_of_input(reader: &FrameReader) -> Converted
    ensures ok { result ≡ converted.Done → reader.now.rest ≡ [] }
    ensures inside { reader.now.rest ≢ [] → result ≡ converted.Refused reader.now.place }
    ensures either { (result ≡ converted.Done) ⊎ (reader.now.rest ≢ []) }
{
    if reader.is_empty() {
        Converted::Done
    } else {
        Converted::Refused(reader.place())
    }
}

/// Feeds the next piece of the input, and writes the lines of the messages that it makes whole. `lines` is the
/// room in which they are made.
fn print_piece<K: Sink>(
    alloc: Global,
    reader: &mut FrameReader,
    piece: &[u8],
    lines: &mut Vec<u8>,
    out: &mut K,
) -> Result<(), Converted>
    requires waits { Waits reader.old }
    requires short { length piece.now ≤ PIECE_LIMIT }
    ensures ok { OnOk result (Waits reader.new × GivesLines (fed reader.old piece.now) reader.new (λ text. Wrote text (K.sink out.old) (K.sink out.new)) × Stood (K.sink out.old).faults (K.sink out.new).faults) }
    ensures err { IfErr result (λ end. PieceEnds end (fed reader.old piece.now) reader.new (K.sink out.old) (K.sink out.new)) }
    ensures fault { IfErr result (λ end. RoseExactly (is_write_fault end) (K.sink out.old).faults (K.sink out.new).faults) }
{
    reader.feed(piece);
    let drained = drain(alloc, reader, lines);
    if drained == Drained::Memory {
        return Err(Converted::Memory);
    }
    match write_all(out, lines) {
        Sent::All => {}
        Sent::Failed => return Err(Converted::WriteFault),
        Sent::Memory => return Err(Converted::Memory),
    }
    match drained {
        Drained::Refused(place) => Err(Converted::Refused(place)),
        _ => Ok(()),
    }
}

/// Makes the lines of the messages that the reader holds, in the place of those in `lines`.
fn drain(alloc: Global, reader: &mut FrameReader, lines: &mut Vec<u8>) -> Drained
    ensures { Drains result reader.old reader.new lines.new.items }
{
    lines.clear();
    let mut place = reader.place();
    loop {
        match reader.next(alloc) {
            Step::Message(message) => {
                if put_line(lines, place, message).is_err() {
                    return Drained::Memory;
                }
                place = reader.place();
            }
            Step::NeedMore => return Drained::Waits,
            Step::Refused(fault) => return Drained::Refused(fault.place()),
            Step::Memory => return Drained::Memory,
        }
    }
}

/// Appends the line of a message whose first byte is at this place.
fn put_line(lines: &mut Vec<u8>, place: u64, message: Message) -> Result<(), AllocError>
    requires { length_field message ≤ MESSAGE_LIMIT }
    ensures { OnOk result (lines.new.items ≡ lines.old.items ++ line place message) }
{
    let mut digits = Buffer::new();
    lines.extend_from_slice(digits.format(place).as_bytes())?;
    lines.extend_from_slice(&[b' ', kind_byte(&message), b' '])?;
    lines.extend_from_slice(digits.format(length_of(&message)).as_bytes())?;
    lines.push(b'\n')?;
    Ok(())
}

/// The type byte of a message, or `-` for a startup packet, which has none.
fn kind_byte(message: &Message) -> u8
    ensures { kind_text message.now ≡ result ∷ [] }
{
    match message {
        Message::Startup(_) => b'-',
        Message::Front(Front::Query(_)) => b'Q',
        Message::Front(Front::CopyData(_)) => b'd',
        Message::Front(Front::CopyDone) => b'c',
        Message::Front(Front::CopyFail(_)) => b'f',
        Message::Front(Front::Terminate) => b'X',
        Message::Back(Back::AuthenticationOk) => b'R',
        Message::Back(Back::ParameterStatus { .. }) => b'S',
        Message::Back(Back::BackendKeyData { .. }) => b'K',
        Message::Back(Back::ReadyForQuery(_)) => b'Z',
        Message::Back(Back::RowDescription(_)) => b'T',
        Message::Back(Back::DataRow(_)) => b'D',
        Message::Back(Back::CommandComplete(_)) => b'C',
        Message::Back(Back::ErrorResponse(_)) => b'E',
        Message::Back(Back::NoticeResponse(_)) => b'N',
        Message::Back(Back::CopyData(_)) => b'd',
        Message::Back(Back::CopyDone) => b'c',
        Message::Back(Back::CopyBoth { .. }) => b'W',
    }
}
