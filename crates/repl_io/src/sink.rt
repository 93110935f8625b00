ghost use Rattle.std.specs.Prelude.{◌<◌, length};
ghost use Rattle.repl_io.specs.Sink.{Writes, Sends, SinkState};

/// What one write answers.
#[derive(Clone, Copy, Debug, PartialEq, Eq)]
pub enum Put {
    /// This many bytes, at least one, from the front of the piece were written.
    Wrote(usize),
    /// The sink is faulty, and wrote nothing.
    Failed,
    /// The sink lacks memory, and wrote nothing.
    Memory,
}

/// Something that takes bytes, in order.
pub trait Sink {
    /// What the sink tells, and its counts.
    ghost sink: { Self → SinkState };

    /// What a write leaves as it was in an object that is more than a sink, as the bytes that a link has
    /// left to read. Holds of the object before and after each write.
    ghost write_keeps: { Self → Self → Type 0 } = { λ _ _. Unit {0} };

    /// Writes the front of `piece`, which is not empty.
    fn write(&mut self, piece: &[u8]) -> Put
        requires { 0 < length piece.now }
        ensures writes { Writes result piece.now (sink self.old) (sink self.new) }
        ensures others { write_keeps self.old self.new };
}

/// How the writing of many bytes ended.
#[derive(Clone, Copy, Debug, PartialEq, Eq)]
pub enum Sent {
    /// All of them are written.
    All,
    /// A write answered `Failed`, and a front of them is written.
    Failed,
    /// A write answered `Memory`, and a front of them is written.
    Memory,
}

/// Writes all the bytes, in as many writes as the sink takes, and none of them again.
pub fn write_all<K: Sink>(out: &mut K, bytes: &[u8]) -> Sent
    ensures { Sends result bytes.now (K.sink out.old) (K.sink out.new) }
{
    let mut start = 0;
    while start < bytes.len() {
        match out.write(&bytes[start..]) {
            Put::Wrote(n) => start += n,
            Put::Failed => return Sent::Failed,
            Put::Memory => return Sent::Memory,
        }
    }
    Sent::All
}
