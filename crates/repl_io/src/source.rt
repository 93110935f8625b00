ghost use Rattle.std.specs.Prelude.{◌<◌, length};
ghost use Rattle.repl_io.specs.Source.{Reads, SourceState};

/// What one read answers.
#[derive(Clone, Copy, Debug, PartialEq, Eq)]
pub enum Got {
    /// This many bytes, at least one, at the front of the room.
    Bytes(usize),
    /// Nothing now, and maybe something later.
    Quiet,
    /// Nothing any more.
    End,
    /// The source is faulty.
    Failed,
}

/// Something that gives bytes, in order and once each.
pub trait Source {
    /// What the source tells, and its counts.
    ghost source: { Self → SourceState };

    /// What a read leaves as it was in an object that is more than a source, as the bytes that a link
    /// has written. Holds of the object before and after each read.
    ghost read_keeps: { Self → Self → Type 0 } = { λ _ _. Unit {0} };

    /// Reads the next bytes into the front of `room`, which is not empty. The rest of `room` may change.
    fn read(&mut self, room: &mut [u8]) -> Got
        requires { 0 < length room.old }
        ensures reads { Reads result room.new (source self.old) (source self.new) }
        ensures others { read_keeps self.old self.new };
}
