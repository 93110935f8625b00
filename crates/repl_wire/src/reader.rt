ghost use Rattle.std.specs.Prelude.{◌≡◌, ◌+◌, ◌-◌, ◌≤◌, ◌⊎◌, ℕ, List, [], ◌++◌, length, take, drop, ◌↔◌, IsTrue, IfOk};
ghost use Rattle.repl_message.specs.declared.message.Message.{Message};
ghost use Rattle.repl_message.specs.Message.{Belongs, after, spelling};
ghost use Rattle.repl_message.specs.Encoding.{capped};
ghost use Rattle.repl_wire.specs.Head.{HoldsFrame};
ghost use Rattle.repl_wire.specs.Reader.{Reading, Waits, Answers, first_phase, fed};

use crate::fault::WireFault;
use crate::taking::{Taken, take};
use repl_message::{MESSAGE_LIMIT, Message, Phase, Side, Startup};
use std::alloc::{AllocError, Global};
use std::marker::Model;

/// The most bytes of one piece that is fed.
pub const PIECE_LIMIT: usize = 8_192;

const _: () = prove!(PIECE_LIMIT == 8_192);

/// The bytes that a reader has room for: the longest message but for one byte, and one piece more.
pub const READER_ROOM: usize = 1 + MESSAGE_LIMIT as usize + PIECE_LIMIT;

const _: () = prove!(READER_ROOM == 1_056_769);

/// What a reader gives next.
#[derive(Debug, Drop)]
pub enum Step {
    /// A message.
    Message(Message),
    /// No message is whole yet, and nothing is refused.
    NeedMore,
    /// The first fault. Its place counts from the first byte that was ever fed, and stops at 2^64 - 1.
    Refused(WireFault),
    /// There is no memory for the message, which is still there.
    Memory,
}

/// Reads the messages of one side of a connection, which arrive in pieces (PostgreSQL 17 manual, section
/// "Message Flow"). It takes memory for 1,056,769 bytes once, and holds no more.
#[derive(Debug, Drop)]
pub struct FrameReader {
    phase: Phase,
    place: u64,
    buffer: Vec<u8>,
    start: usize,
    end: usize,
}

impl Model for FrameReader {
    ghost use Rattle.std.specs.Prelude.{◌≡◌, ◌≤◌, ◌-◌, ◌<◌, ◌^◌, length, take, drop};
    ghost use Rattle.repl_wire.specs.Reader.{Reading};

    ghost Value = { Reading };

    ghost view = { λ r. record { phase = r.phase; place = r.place; rest = take (r.end - r.start) (drop r.start r.buffer.items) } };

    ghost invariant = { λ r. (length r.buffer.items ≡ 1_056_769) × (r.start ≤ r.end) × (r.end ≤ 1_056_769) };
}

impl FrameReader {
    /// A reader of what this side sends. Of a client that is startup packets first: after a request for TLS
    /// or for GSS encryption a packet again, after the parameters messages, and after a request to cancel
    /// nothing. Takes the memory that the reader needs.
    pub fn new(alloc: Global, side: Side) -> Result<FrameReader, AllocError>
        ensures { IfOk result (λ reader. reader ≡ record { phase = first_phase side; place = 0; rest = [] }) }
    {
        Ok(FrameReader {
            phase: match side {
                Side::Front => Phase::Startup,
                Side::Back => Phase::Back,
            },
            place: 0,
            buffer: zeros(alloc, READER_ROOM)?,
            start: 0,
            end: 0,
        })
    }

    /// How many bytes were given, which is the place of the next message; it stops at 2^64 - 1.
    pub fn place(&self) -> u64
        ensures { result ≡ self.now.place }
    {
        self.place
    }

    /// Whether all that was fed is given.
    pub fn is_empty(&self) -> bool
        ensures { IsTrue result ↔ (self.now.rest ≡ []) }
    {
        self.rest().is_empty()
    }

    /// What was fed and is not given yet.
    fn rest(&self) -> &[u8]
        ensures value { result.now ≡ self.now.rest }
        ensures held { length self.now.rest ≤ READER_ROOM }
    {
        &self.buffer[self.start..self.end]
    }

    /// Takes the next piece of what the side sends, at most 8,192 bytes, where the reader waits for more: at
    /// first, and after `NeedMore`. Takes no memory.
    pub fn feed(&mut self, piece: &[u8])
        requires waits { Waits self.old }
        requires short { length piece.now ≤ PIECE_LIMIT }
        ensures fed { self.new ≡ fed self.old piece.now }
        ensures held { length self.new.rest ≤ READER_ROOM }
    {
        move_to_front(&mut self.buffer, self.start, self.end);
        self.end -= self.start;
        self.start = 0;
        put_at(&mut self.buffer, self.end, piece);
        self.end += piece.len();
    }

    /// The next message of what was fed, or why there is none. The type byte is judged at once, the length
    /// field when its four bytes are there, and the body when the frame is whole. Takes memory for the
    /// message.
    pub fn next(&mut self, alloc: Global) -> Step
        // Which answer it is, by the bytes that were fed and not given: how they were cut does not matter.
        ensures exact { Answers self.old result self.new }
        // A message is spelled so, and takes exactly its frame.
        ensures found { (m : Message) → result ≡ Step.Message m → Belongs self.old.phase m × ((past : List ℕ) ×
            (self.old.rest ≡ spelling m ++ past) ×
            (self.new ≡ record { phase = after self.old.phase m; place = capped (self.old.place + length (spelling m)); rest = past })) }
        // What is spelled so is given, whatever follows it, unless memory runs out.
        ensures only { (m : Message) (past : List ℕ) → Belongs self.old.phase m → self.old.rest ≡ spelling m ++ past →
            (result ≡ Step.Message m) ⊎ (result ≡ Step.Memory) }
        // Memory runs out only where a whole frame stands there.
        ensures memory { result ≡ Step.Memory → HoldsFrame self.old.phase self.old.rest }
        ensures held { length self.new.rest ≤ READER_ROOM }
    {
        match take(alloc, self.phase, self.rest()) {
            Taken::Whole { message, used } => {
                self.phase = phase_after(self.phase, &message);
                self.place = self.place.saturating_add(used as u64);
                self.start += used;
                Step::Message(message)
            }
            Taken::Short => Step::NeedMore,
            Taken::Wrong(fault) => Step::Refused(fault.moved(self.place)),
            Taken::Memory => Step::Memory,
        }
    }
}

/// Moves the bytes from `start` up to `end` to the front. Where a reader has given a message since it was fed,
/// they are a part of the last piece, so no byte is moved twice.
fn move_to_front(buffer: &mut [u8], start: usize, end: usize)
    requires { (start ≤ end) × (end ≤ length buffer.old) }
    ensures moved { take (end - start) buffer.new ≡ take (end - start) (drop start buffer.old) }
    ensures size { length buffer.new ≡ length buffer.old }
{
    if start > 0 {
        buffer.copy_within(start..end, 0);
    }
}

/// Copies a piece into the buffer.
fn put_at(buffer: &mut [u8], at: usize, piece: &[u8])
    requires { at + length piece.now ≤ length buffer.old }
    ensures { buffer.new ≡ take at buffer.old ++ piece.now ++ drop (at + length piece.now) buffer.old }
{
    buffer[at..at + piece.len()].copy_from_slice(piece);
}

/// So many zero bytes.
fn zeros(alloc: Global, count: usize) -> Result<Vec<u8>, AllocError>
    ensures { IfOk result (λ bytes. length bytes.items ≡ count) }
{
    vec![in alloc; 0; count]
}

/// What is read after a message.
fn phase_after(phase: Phase, message: &Message) -> Phase
    ensures { result ≡ after phase message.now }
{
    match message {
        Message::Startup(Startup::Params(_)) => Phase::Front,
        Message::Startup(Startup::Ssl) | Message::Startup(Startup::Gss) => Phase::Startup,
        Message::Startup(Startup::Cancel { .. }) => Phase::Ended,
        Message::Front(_) | Message::Back(_) => phase,
    }
}
