ghost use Rattle.std.specs.Prelude.{◌≡◌, ◌<◌, ◌≤◌, ◌+◌, ℕ, length, IfOk, OnOk, Err};
ghost use Rattle.repl_wire.specs.Reader.{Waits};
ghost use Rattle.repl_filter.specs.declared.converter.Refused.TheVariants as refused;
ghost use Rattle.repl_identify.specs.Stages.{asks, Goes, Walked, Stuck};
ghost use Rattle.repl_identify.specs.declared.stage.Stage.{Stage};
ghost use Rattle.repl_identify.specs.Session.{IsSession, IsNoSessionAt};

use crate::stage::{Session, Stage};
use repl_filter::Refused;
use repl_wire::{FrameReader, Message, PIECE_LIMIT, Side, Step};
use std::alloc::Global;

/// What the session asks for that the bytes are: requests for encryption, a startup packet for physical
/// replication, queries IDENTIFY_SYSTEM, and the end, with nothing after it. Other bytes are refused where the first packet
/// or message begins that is not allowed or not whole.
pub(crate) fn read_session(alloc: Global, input: &[u8]) -> Result<Session, Refused>
    ensures read { IfOk result (λ session. IsSession input.now session.requests session.questions) }
    ensures refused { (place : ℕ) → result ≡ Err (refused.At place) → IsNoSessionAt input.now place }
{
    let mut reader = FrameReader::new(alloc, Side::Front)?;
    let mut stage = Stage::Starting(0);
    for piece in input.chunks(PIECE_LIMIT) {
        reader.feed(piece);
        stage = walk(alloc, &mut reader, stage)?;
    }
    match stage {
        Stage::Over(session) if reader.is_empty() => Ok(session),
        _ => Err(Refused::At(reader.place())),
    }
}

/// The stage after the messages that the reader has whole, which it gives.
fn walk(alloc: Global, reader: &mut FrameReader, from: Stage) -> Result<Stage, Refused>
    requires fits { reader.old.place + length reader.old.rest ≤ u64.MAX }
    requires few { asks from ≤ reader.old.place }
    ensures walked { IfOk result (λ to. Walked reader.old from reader.new to) }
    ensures waits { OnOk result (Waits reader.new) }
    ensures stuck { (place : ℕ) → result ≡ Err (refused.At place) → Stuck reader.old from place }
{
    let mut stage = from;
    loop {
        let place = reader.place();
        match reader.next(alloc) {
            Step::Message(message) => stage = advance(alloc, stage, message, place)?,
            Step::NeedMore => return Ok(stage),
            Step::Refused(_) => return Err(Refused::At(place)),
            Step::Memory => return Err(Refused::Memory),
        }
    }
}

/// The stage after a message whose first byte is at this place.
fn advance(alloc: Global, from: Stage, message: Message, place: u64) -> Result<Stage, Refused>
    requires { asks from < usize.MAX }
    ensures leads { IfOk result (λ to. Goes from message to) }
    ensures refuses { (at : ℕ) → result ≡ Err (refused.At at) → (at ≡ place) × ((to : Stage) → ¬ Goes from message to) }
{
    match from.after(alloc, &message)? {
        Some(to) => Ok(to),
        None => Err(Refused::At(place)),
    }
}
