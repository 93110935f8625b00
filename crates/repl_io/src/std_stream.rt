ghost use Rattle.std.specs.Prelude.{◌<◌, length};

use crate::sink::{Put, Sink};
use crate::source::{Got, Source};
use repl_effects::Count;
use std::io::{ErrorKind, Read, Write};

/// A source over one of std's readers, as standard input.
///
/// A read says of the reader's bytes what the reader tells of them, in the clause `told`: a slice of
/// memory tells all, and a real file or a terminal tells nothing. As a `Source` it tells no bytes, since
/// std lets a reader that tells none begin to tell, and a `Source` may not. So code that is generic over
/// sources knows only the counts.
#[derive(Drop)]
pub struct StdSource<R> {
    reader: R,
    faults: Count,
    quiets: Count,
    ends: Count,
}

impl<R: Read> StdSource<R> {
    ghost use Rattle.repl_io.specs.Streams.{IsUnread};

    /// A source that gives what the reader gives.
    pub fn new(reader: R) -> StdSource<R>
        ensures { IsUnread reader result }
    {
        StdSource {
            reader,
            faults: Count::new(),
            quiets: Count::new(),
            ends: Count::new(),
        }
    }
}

impl<R: Read> Source for StdSource<R> {
    ghost use Rattle.repl_io.specs.Source.{CountsRead, Reads};
    ghost use Rattle.repl_io.specs.Streams.{reader_left, source_of, TakesTold};

    ghost source = { source_of };

    /// A read that a signal interrupts is quiet.
    fn read(&mut self, room: &mut [u8]) -> Got
        requires { 0 < length room.old }
        ensures reads { Reads result room.new (source_of self.old) (source_of self.new) }
        ensures counts { CountsRead result (source_of self.old) (source_of self.new) }
        ensures told { TakesTold result room.new (reader_left R.remaining self.old) (reader_left R.remaining self.new) }
    {
        match self.reader.read(room) {
            Ok(0) => {
                self.ends.raise();
                Got::End
            }
            Ok(count) => Got::Bytes(count),
            Err(error) => {
                if error.kind() == ErrorKind::Interrupted {
                    self.quiets.raise();
                    Got::Quiet
                } else {
                    self.faults.raise();
                    Got::Failed
                }
            }
        }
    }
}

/// A sink over one of std's writers, as standard output. It does not flush.
///
/// A write says of the writer's bytes what the writer tells of them, in the clause `told`: a `Vec` tells
/// all, and a real file or a terminal tells nothing. As a `Sink` it tells no bytes, since std lets a writer
/// that tells none begin to tell, and a `Sink` may not. So code that is generic over sinks knows only the
/// counts.
#[derive(Drop)]
pub struct StdSink<W> {
    writer: W,
    faults: Count,
    wants: Count,
}

impl<W: Write> StdSink<W> {
    ghost use Rattle.repl_io.specs.Streams.{IsUnwritten};

    /// A sink that writes what it is given to the writer.
    pub fn new(writer: W) -> StdSink<W>
        ensures { IsUnwritten writer result }
    {
        StdSink {
            writer,
            faults: Count::new(),
            wants: Count::new(),
        }
    }
}

impl<W: Write> Sink for StdSink<W> {
    ghost use Rattle.repl_io.specs.Sink.{CountsWrite, Writes};
    ghost use Rattle.repl_io.specs.Streams.{sink_of, writer_holds, AddsTold};

    ghost sink = { sink_of };

    /// A write that takes nothing is a fault.
    fn write(&mut self, piece: &[u8]) -> Put
        requires { 0 < length piece.now }
        ensures writes { Writes result piece.now (sink_of self.old) (sink_of self.new) }
        ensures counts { CountsWrite result (sink_of self.old) (sink_of self.new) }
        ensures told { AddsTold result piece.now (writer_holds W.contents self.old) (writer_holds W.contents self.new) }
    {
        match self.writer.write(piece) {
            Ok(0) => {
                self.faults.raise();
                Put::Failed
            }
            Ok(count) => Put::Wrote(count),
            Err(error) => {
                if error.kind() == ErrorKind::OutOfMemory {
                    self.wants.raise();
                    Put::Memory
                } else {
                    self.faults.raise();
                    Put::Failed
                }
            }
        }
    }
}
