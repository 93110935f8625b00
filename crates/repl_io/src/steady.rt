ghost use Rattle.std.specs.Prelude.{◌≡◌, ℕ, ◌≤◌, length};

use crate::copies::copy_front;
use crate::sink::{Put, Sink};
use crate::source::{Got, Source};
use repl_effects::Count;
use std::alloc::{AllocError, Global};

/// A link in memory whose reads never fail and are never quiet: it gives its input and then its end. It
/// tells everything. A write fails only for want of memory.
#[derive(Debug, Drop)]
pub struct SteadyLink {
    input: Vec<u8>,
    taken: usize,
    written: Vec<u8>,
    ends: Count,
    wants: Count,
    ghost within: { taken ≤ length input.items },
}

impl SteadyLink {
    ghost use Rattle.std.specs.Prelude.{[], Some, IfOk};
    ghost use Rattle.repl_io.specs.Steady.{IsFresh, sink_of};

    /// A link that gives this input, and to which nothing is written yet.
    pub fn new(alloc: Global, input: Vec<u8>) -> Result<SteadyLink, AllocError>
        ensures { IfOk result (λ link. IsFresh input.items link) }
    {
        Ok(SteadyLink {
            input,
            taken: 0,
            written: Vec::new(alloc),
            ends: Count::new(),
            wants: Count::new(),
        })
    }

    /// What was written so far.
    pub fn written(&self) -> &[u8]
        ensures { (sink_of self.now).written ≡ Some result.now }
    {
        &self.written
    }
}

impl Source for SteadyLink {
    ghost use Rattle.std.specs.Prelude.{◌<◌};
    ghost use Rattle.repl_io.specs.Source.{CountsRead, Reads};
    ghost use Rattle.repl_io.specs.Steady.{source_of, GivesAll, KeepsSink};

    ghost source = { source_of };

    ghost read_keeps = { KeepsSink };

    /// Gives as much of the input as fits the room, and at its end `End`.
    fn read(&mut self, room: &mut [u8]) -> Got
        requires { 0 < length room.old }
        ensures reads { Reads result room.new (source_of self.old) (source_of self.new) }
        ensures counts { CountsRead result (source_of self.old) (source_of self.new) }
        ensures others { KeepsSink self.old self.new }
        ensures all { GivesAll (length room.old) (source_of self.old).left result }
    {
        if self.taken == self.input.len() {
            self.ends.raise();
            return Got::End;
        }
        let count = copy_front(&self.input[self.taken..], room);
        self.taken += count;
        Got::Bytes(count)
    }
}

impl Sink for SteadyLink {
    ghost use Rattle.std.specs.Prelude.{◌<◌};
    ghost use Rattle.repl_io.specs.Sink.{CountsWrite, Writes, WritesWhole};
    ghost use Rattle.repl_io.specs.Steady.{sink_of, KeepsSource};

    ghost sink = { sink_of };

    ghost write_keeps = { KeepsSource };

    /// Writes the whole piece, or answers `Memory`.
    fn write(&mut self, piece: &[u8]) -> Put
        requires { 0 < length piece.now }
        ensures writes { Writes result piece.now (sink_of self.old) (sink_of self.new) }
        ensures counts { CountsWrite result (sink_of self.old) (sink_of self.new) }
        ensures others { KeepsSource self.old self.new }
        ensures whole { WritesWhole result piece.now }
    {
        match self.written.extend_from_slice(piece) {
            Ok(()) => Put::Wrote(piece.len()),
            Err(_) => {
                self.wants.raise();
                Put::Memory
            }
        }
    }
}
