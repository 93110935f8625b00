//! Reading an input whole.
ghost use Rattle.std.specs.Prelude.{◌≡◌, ℕ, ◌^◌, ◌≤◌, List, take, IfOk, Err};
ghost use Rattle.repl_effects.specs.Counts.{RoseBy, RoseExactly};
ghost use Rattle.repl_effects.specs.Told.{IfTold, Lost};
ghost use Rattle.repl_filter.specs.declared.gather.Stop.TheVariants as stop;
ghost use Rattle.repl_filter.specs.Gathering.{has_failed};

use repl_io::{Got, Source};
use std::alloc::{AllocError, Global};

/// The most bytes of an input that is gathered: one more than 64 KiB, to see that a text is longer.
pub const GATHER_LIMIT: usize = 65_537;

/// The most reads of an input that is gathered: more than 2^62 of them are quiet where all are made.
const TURNS: u64 = (1 << 62) + GATHER_LIMIT as u64;

// The contracts take the limit from the code, so it is held to its number here.
const _: () = prove!(GATHER_LIMIT == 65_537);

/// The most bytes of one read.
const ROOM: usize = 8_192;

/// Why an input was not gathered.
pub(crate) enum Stop {
    /// The source is faulty.
    ReadFault,
    /// The source was quiet too often.
    TurnsSpent,
    Memory,
}

impl From<AllocError> for Stop {
    ghost use Rattle.std.specs.Prelude.{◌≡◌};
    ghost use Rattle.repl_filter.specs.declared.gather.Stop.TheVariants.{Memory};

    ghost from_gives = { λ _ e. e ≡ Memory };

    fn from(_error: AllocError) -> Stop {
        Stop::Memory
    }
}

/// Reads the whole input, or so many of its first bytes where there are more.
pub(crate) fn gather<S: Source>(alloc: Global, input: &mut S, limit: usize) -> Result<Vec<u8>, Stop>
    requires { limit ≤ GATHER_LIMIT }
    ensures bytes { IfOk result (λ bytes. IfTold (S.source input.old).left (λ left. bytes.items ≡ take limit left)) }
    // Those bytes were read, and no others.
    ensures lost { IfOk result (λ bytes. Lost (S.source input.old).left (S.source input.new).left bytes.items) }
    ensures fault { RoseExactly (has_failed result) (S.source input.old).faults (S.source input.new).faults }
    ensures spent { result ≡ Err stop.TurnsSpent → RoseBy (2 ^ 62) (S.source input.old).quiets (S.source input.new).quiets }
{
    let mut bytes = Vec::new(alloc);
    let mut room = [0; ROOM];
    for _ in 0..TURNS {
        let free = limit - bytes.len();
        if free == 0 {
            return Ok(bytes);
        }
        let some = free.min(ROOM);
        match input.read(&mut room[..some]) {
            Got::Bytes(count) => bytes.extend_from_slice(&room[..count])?,
            Got::Quiet => {}
            Got::End => return Ok(bytes),
            Got::Failed => return Err(Stop::ReadFault),
        }
    }
    Err(Stop::TurnsSpent)
}
