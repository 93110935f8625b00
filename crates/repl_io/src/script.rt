ghost use Rattle.std.specs.Prelude.{◌≡◌, ℕ, ◌<◌, ◌≤◌, length};
ghost use Rattle.repl_io.specs.Step.{step_at, bytes_of};

use crate::copies::copy_front;
use crate::sink::{Put, Sink};
use crate::source::{Got, Source};
use repl_effects::Count;
use std::alloc::{AllocError, Global};

/// What a scripted link does at one of its reads, or at several.
#[derive(Debug, Drop)]
pub enum LinkStep {
    /// Gives these bytes, over as many reads as their rooms make of them. No bytes are a `Quiet`.
    Give(Vec<u8>),
    /// Answers `Quiet` once.
    Quiet,
    /// Answers `Failed` once.
    Fail,
}

/// A link in memory that reads by a list of steps and fails at the writes of a list. It tells everything.
#[derive(Debug, Drop)]
pub struct ScriptLink {
    steps: Vec<LinkStep>,
    next: usize,
    taken: usize,
    read_faults: Count,
    quiets: Count,
    ends: Count,
    failing: Vec<u64>,
    writes: Count,
    written: Vec<u8>,
    write_faults: Count,
    wants: Count,
    ghost in_steps: { next ≤ length steps.items },
    ghost in_step: { 0 < taken → taken < length (bytes_of (step_at steps.items next)) },
}

impl ScriptLink {
    ghost use Rattle.std.specs.Prelude.{Some, IfOk};
    ghost use Rattle.repl_io.specs.Script.{IsFresh, sink_of};

    /// A link that reads by these steps, and whose writes with these numbers, counted from 1, fail.
    pub fn new(
        alloc: Global,
        steps: Vec<LinkStep>,
        failing: Vec<u64>,
    ) -> Result<ScriptLink, AllocError>
        ensures { IfOk result (λ link. IsFresh steps.items failing.items link) }
    {
        Ok(ScriptLink {
            steps,
            next: 0,
            taken: 0,
            read_faults: Count::new(),
            quiets: Count::new(),
            ends: Count::new(),
            failing,
            writes: Count::new(),
            written: Vec::new(alloc),
            write_faults: Count::new(),
            wants: Count::new(),
        })
    }

    /// What was written so far.
    pub fn written(&self) -> &[u8]
        ensures { (sink_of self.now).written ≡ Some result.now }
    {
        &self.written
    }
}

impl Source for ScriptLink {
    ghost use Rattle.repl_io.specs.Source.{CountsRead, Reads};
    ghost use Rattle.repl_io.specs.Script.{source_of, KeepsSink, FollowsStep};

    ghost source = { source_of };

    ghost read_keeps = { KeepsSink };

    /// Reads as the next step says, and past the last step answers `End`.
    fn read(&mut self, room: &mut [u8]) -> Got
        requires { 0 < length room.old }
        ensures reads { Reads result room.new (source_of self.old) (source_of self.new) }
        ensures counts { CountsRead result (source_of self.old) (source_of self.new) }
        ensures others { KeepsSink self.old self.new }
        ensures script { FollowsStep (length room.old) self.old result self.new }
    {
        if self.next == self.steps.len() {
            self.ends.raise();
            return Got::End;
        }
        match &self.steps[self.next] {
            LinkStep::Give(bytes) => {
                let count = copy_front(&bytes[self.taken..], room);
                self.taken += count;
                if self.taken == bytes.len() {
                    self.next += 1;
                    self.taken = 0;
                }
                if count == 0 {
                    self.quiets.raise();
                    Got::Quiet
                } else {
                    Got::Bytes(count)
                }
            }
            LinkStep::Quiet => {
                self.next += 1;
                self.quiets.raise();
                Got::Quiet
            }
            LinkStep::Fail => {
                self.next += 1;
                self.read_faults.raise();
                Got::Failed
            }
        }
    }
}

impl Sink for ScriptLink {
    ghost use Rattle.repl_io.specs.Sink.{CountsWrite, Writes, WritesWhole};
    ghost use Rattle.repl_io.specs.Script.{sink_of, KeepsSource, FollowsList};

    ghost sink = { sink_of };

    ghost write_keeps = { KeepsSource };

    /// Fails at the writes of the list, and else writes the whole piece or answers `Memory`.
    fn write(&mut self, piece: &[u8]) -> Put
        requires { 0 < length piece.now }
        ensures writes { Writes result piece.now (sink_of self.old) (sink_of self.new) }
        ensures counts { CountsWrite result (sink_of self.old) (sink_of self.new) }
        ensures others { KeepsSource self.old self.new }
        ensures whole { WritesWhole result piece.now }
        ensures script { FollowsList self.old result self.new }
    {
        self.writes.raise();
        if self.failing.contains(&self.writes.get()) {
            self.write_faults.raise();
            return Put::Failed;
        }
        match self.written.extend_from_slice(piece) {
            Ok(()) => Put::Wrote(piece.len()),
            Err(_) => {
                self.wants.raise();
                Put::Memory
            }
        }
    }
}
