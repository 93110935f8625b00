//! Reading the message at the front of a buffer. What `take` calls for each message is told to be compiled into it, as
//! bench/frames.sh measures.
ghost use Rattle.std.specs.Prelude.{◌≡◌, ℕ, ◌+◌, ◌<◌, ◌≤◌, ◌⊎◌, List, ◌++◌, length, take, IfOk, IfErr, IsSome, MatchOption, Result};
ghost use Rattle.std.specs.Option.{option_copied, option_map};
ghost use Rattle.repl_message.specs.Message.{Spells};
ghost use Rattle.repl_wire.specs.declared.fault.WireFault.{WireFault};
ghost use Rattle.repl_wire.specs.Places.{IsFault};
ghost use Rattle.repl_message.specs.Decoding.{number};
ghost use Rattle.repl_wire.specs.Head.{HoldsFrame, head_of, sent_head};
ghost use Rattle.repl_wire.specs.Judging.{IsJudged, Gives, judge, judge_startup, judge_sent, front_lengths, lengths_of, front_of, message_of, judge_packet, ended_at, made, parameters_of, nothing_of, two_numbers_of};

use crate::fault::WireFault;
use crate::fields::{
    FieldFault, read_bytes, read_nothing, read_parameters, read_text, read_two_numbers,
};
use crate::head::{Head, judge_head};
use crate::server_fields::read_back;
use repl_message::{
    CANCEL_REQUEST, COPY_DATA_LIMIT, Front, GSS_REQUEST, MESSAGE_LIMIT, Message, PROTOCOL_3_0,
    Phase, SSL_REQUEST, STARTUP_LEAST, STARTUP_LIMIT, Side, Startup,
};
use std::alloc::Global;

/// What stands at the front of a buffer.
#[derive(Debug, Drop)]
pub enum Taken {
    /// A message, and how many bytes it takes.
    Whole { message: Message, used: usize },
    /// The beginning of a message, in which nothing is refused yet.
    Short,
    /// The first fault, whose place counts from the buffer's first byte.
    Wrong(WireFault),
    /// There is no memory for the message.
    Memory,
}

/// Reads the message at the front of the bytes, whatever follows it.
///
/// It reads every message that may be sent in the phase: every startup packet, every message of the client,
/// or every message of the server. A packet of another code is refused at its code, another message at its
/// type byte, and where the session is over any byte.
#[inline(never)]
pub fn take(alloc: Global, phase: Phase, bytes: &[u8]) -> Taken
    // What is read is spelled so.
    ensures found { (m : Message) (used : ℕ) → result ≡ Taken.Whole m used →
        (used ≤ length bytes.now) × Spells phase m (take used bytes.now) }
    // What is spelled so is read, whatever follows it, unless memory runs out.
    ensures only { (m : Message) (text rest : List ℕ) → Spells phase m text → bytes.now ≡ text ++ rest →
        (result ≡ Taken.Whole m (length text)) ⊎ (result ≡ Taken.Memory) }
    // A fault stands at the first field with which no message goes on.
    ensures place { (fault : WireFault) → result ≡ Taken.Wrong fault → IsFault phase bytes.now fault }
    // Which answer it is, and which fault.
    ensures exact { IsJudged result (judge phase bytes.now) }
    // Memory runs out only where a whole frame stands there.
    ensures memory { result ≡ Taken.Memory → HoldsFrame phase bytes.now }
{
    let size = match judge_head(phase, bytes) {
        Head::Frame(size) => size,
        Head::Short => return Taken::Short,
        Head::Wrong(fault) => return Taken::Wrong(fault),
    };
    if bytes.len() < size {
        return Taken::Short;
    }
    take_frame(alloc, phase, bytes, size)
}

/// Reads the message in the frame of so many bytes at the front of the bytes.
#[inline(always)]
fn take_frame(alloc: Global, phase: Phase, bytes: &[u8], size: usize) -> Taken
    requires head { head_of phase bytes.now ≡ Head.Frame size }
    requires there { size ≤ length bytes.now }
    ensures { IsJudged result (judge phase bytes.now) }
{
    match phase {
        Phase::Startup => take_startup(alloc, bytes, size),
        Phase::Front => take_sent(alloc, Side::Front, bytes, size),
        Phase::Back => take_sent(alloc, Side::Back, bytes, size),
        Phase::Ended => unreachable!(),
    }
}

/// The answer where a frame ends at this place, and its body was read so.
#[inline(always)]
fn answer(read: Result<Message, FieldFault>, end: usize) -> Taken
    ensures { (whole : Result Message ℕ) → Gives (λ m. m) read whole → IsJudged result (ended_at end whole) }
{
    match read {
        Ok(message) => Taken::Whole { message, used: end },
        Err(FieldFault::Left(left)) => {
            Taken::Wrong(WireFault::Body(end.saturating_sub(left) as u64))
        }
        Err(FieldFault::Memory) => Taken::Memory,
    }
}

/// Reads the startup packet of so many bytes.
fn take_startup(alloc: Global, bytes: &[u8], size: usize) -> Taken
    requires head { head_of Phase.Startup bytes.now ≡ Head.Frame size }
    requires long { 8 ≤ size }
    requires there { size ≤ length bytes.now }
    ensures { IsJudged result (judge_startup bytes.now) }
{
    take_packet(alloc, &bytes[4..size])
}

/// Reads a startup packet's body: its code, and what stands after it.
#[tactic(auto, unfolding(crate::specs::Judging::judge_packet))]
fn take_packet(alloc: Global, body: &[u8]) -> Taken
    requires { 4 ≤ length body.now }
    ensures { IsJudged result (judge_packet body.now) }
{
    let end = body.len() + 4;
    let (code, fields) = body.split_at(4);
    match u32::from_be_bytes([code[0], code[1], code[2], code[3]]) {
        PROTOCOL_3_0 => answer(packet_of_parameters(alloc, fields), end),
        CANCEL_REQUEST => answer(cancel_packet(fields), end),
        SSL_REQUEST => answer(request_packet(Startup::Ssl, fields), end),
        GSS_REQUEST => answer(request_packet(Startup::Gss, fields), end),
        said => Taken::Wrong(WireFault::Code { place: 4, said }),
    }
}

/// The packet of these parameters.
fn packet_of_parameters(alloc: Global, fields: &[u8]) -> Result<Message, FieldFault>
    ensures { Gives (λ m. m) result (made (λ pairs. Message.Startup (Startup.Params pairs)) (parameters_of fields.now)) }
{
    Ok(Message::Startup(Startup::Params(read_parameters(alloc, fields)?)))
}

/// The packet that asks to cancel, of a session's number and key.
fn cancel_packet(fields: &[u8]) -> Result<Message, FieldFault>
    ensures { Gives (λ m. m) result (made (λ (ids : ℕ × ℕ). Message.Startup (Startup.Cancel ids.0 ids.1)) (two_numbers_of fields.now)) }
{
    let (pid, key) = read_two_numbers(fields)?;
    Ok(Message::Startup(Startup::Cancel { pid, key }))
}

/// A packet that is only its code, after which nothing stands.
fn request_packet(request: Startup, fields: &[u8]) -> Result<Message, FieldFault>
    ensures { Gives (λ m. m) result (made (λ _. Message.Startup request) (nothing_of fields.now)) }
{
    read_nothing(fields)?;
    Ok(Message::Startup(request))
}

/// Reads the message of either side that has so many bytes: its type byte says how its body is read.
#[inline(always)]
fn take_sent(alloc: Global, side: Side, bytes: &[u8], size: usize) -> Taken
    requires head { sent_head side bytes.now ≡ Head.Frame size }
    requires long { 5 ≤ size }
    requires there { size ≤ length bytes.now }
    ensures { IsJudged result (judge_sent side bytes.now) }
{
    answer(read_message(alloc, side, bytes[0], &bytes[5..size]), size)
}

/// The message of this type byte that the body spells.
#[inline(always)]
fn read_message(alloc: Global, side: Side, kind: u8, body: &[u8]) -> Result<Message, FieldFault>
    requires { IsSome (lengths_of side kind) }
    ensures { Gives (λ m. m) result (message_of side kind body.now) }
{
    match side {
        Side::Front => read_front(alloc, kind, body),
        Side::Back => Ok(Message::Back(read_back(alloc, kind, body)?)),
    }
}

/// The message of the client.
fn read_front(alloc: Global, kind: u8, body: &[u8]) -> Result<Message, FieldFault>
    requires { IsSome (front_lengths kind) }
    ensures { Gives (λ m. m) result (front_of kind body.now) }
{
    let message = match kind {
        b'Q' => Front::Query(read_text(alloc, body)?),
        b'd' => Front::CopyData(read_bytes(alloc, body)?),
        b'f' => Front::CopyFail(read_text(alloc, body)?),
        b'c' => {
            read_nothing(body)?;
            Front::CopyDone
        }
        b'X' => {
            read_nothing(body)?;
            Front::Terminate
        }
        _ => unreachable!(),
    };
    Ok(Message::Front(message))
}
