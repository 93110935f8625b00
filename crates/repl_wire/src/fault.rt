ghost use Rattle.std.specs.Prelude.{◌≡◌};
ghost use Rattle.repl_wire.specs.Places.{place_of};
ghost use Rattle.repl_wire.specs.Reader.{at_place};

use thiserror::Error;

/// The first fault of bytes that spell no message. Places count from the first of the bytes.
#[derive(Clone, Copy, Debug, PartialEq, Eq, Error)]
pub enum WireFault {
    /// The byte at this place is no message's type.
    #[error("no message begins with the byte at {0}")]
    Kind(u64),
    /// The length field at `place` is out of range.
    #[error("length {said} at {place} is out of range")]
    Length { place: u64, said: u32 },
    /// The code of the startup packet at `place` is unknown.
    #[error("unknown startup code {said} at {place}")]
    Code { place: u64, said: u32 },
    /// The place of the first field with which no body goes on, or of the first byte after the last field.
    #[error("no message goes on with the field at {0}")]
    Body(u64),
}

impl WireFault {
    /// Where it stands: how many bytes stand before the field that is refused.
    pub fn place(self) -> u64
        ensures { result ≡ place_of self }
    {
        match self {
            WireFault::Kind(place) | WireFault::Body(place) => place,
            WireFault::Length { place, .. } | WireFault::Code { place, .. } => place,
        }
    }

    /// The fault of bytes that stand at this place, with its own place counted from there on.
    pub(crate) fn moved(self, place: u64) -> WireFault
        ensures { result ≡ at_place place self }
    {
        match self {
            WireFault::Kind(at) => WireFault::Kind(place.saturating_add(at)),
            WireFault::Length { place: at, said } => WireFault::Length {
                place: place.saturating_add(at),
                said,
            },
            WireFault::Code { place: at, said } => WireFault::Code {
                place: place.saturating_add(at),
                said,
            },
            WireFault::Body(at) => WireFault::Body(place.saturating_add(at)),
        }
    }
}
