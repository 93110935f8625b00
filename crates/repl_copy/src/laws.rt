ghost use Rattle.std.specs.Prelude.{◌≡◌};
ghost use Rattle.repl_copy.specs.declared.payload.Stream.{Stream};
ghost use Rattle.repl_copy.specs.declared.payload.Reply.{Reply};
ghost use Rattle.repl_copy.specs.Payload.{stream_spelling, reply_spelling, IsStream, IsReply};

/// A payload of a server spells one value at most.
pub fn one_stream()
    ensures { (a b : Stream) → IsStream a → IsStream b → stream_spelling a ≡ stream_spelling b → a ≡ b }
{}

/// A payload of a standby spells one value at most.
pub fn one_reply()
    ensures { (a b : Reply) → IsReply a → IsReply b → reply_spelling a ≡ reply_spelling b → a ≡ b }
{}
