use bytes::Bytes;
use repl_text::Text;

/// A message of the client after the startup (manual, "Message Formats").
#[derive(Debug, Drop)]
pub enum Front {
    /// A command or a statement: `Q`.
    Query(Text),
    /// A piece of a copy's data: `d`.
    CopyData(Bytes),
    /// The end of the client's copy: `c`.
    CopyDone,
    /// The client gives its copy up, with a reason: `f`.
    CopyFail(Text),
    /// The end of the session: `X`.
    Terminate,
}
