ghost use Rattle.std.specs.Prelude.{◌≡◌};

use crate::script::ScriptLink;
use crate::sink::Sink;
use crate::source::Source;
use crate::steady::SteadyLink;

/// The two sides of one connection: a source and a sink that leave each other as they are.
pub trait Link: Source + Sink {
    /// A read changes neither what is written nor the counts of the writes.
    ghost reads_keep: { (s t : Self) → Self.read_keeps s t → Self.sink t ≡ Self.sink s };

    /// A write changes neither what is given and left nor the counts of the reads.
    ghost writes_keep: { (s t : Self) → Self.write_keeps s t → Self.source t ≡ Self.source s };
}

impl Link for SteadyLink {
    ghost reads_keep = { λ s t kept. kept };

    ghost writes_keep = { λ s t kept. kept };
}

impl Link for ScriptLink {
    ghost reads_keep = { λ s t kept. kept };

    ghost writes_keep = { λ s t kept. kept };
}
