//! What stands around a body: its length field, and what the bytes are to be where memory runs out.
ghost use Rattle.std.specs.Prelude.{◌≡◌, ◌+◌, ◌<◌, ◌≤◌, ◌∷◌, ◌++◌, take, IfOk, IfErr, IsOk, OnOk, OnErr, List};
ghost use Rattle.repl_message.specs.declared.fault.EncodeFault.TheVariants as EncodeFault;
ghost use Rattle.repl_message.specs.Message.{int32};
ghost use Rattle.repl_message.specs.Encoding.{capped, Appends};

use crate::fault::EncodeFault;
use crate::put::{put_byte, put_u32};
use std::alloc::AllocError;

/// The length field before a body of this length, which it counts together with itself.
pub(crate) fn length_field(body: u64, limit: u32) -> Result<u32, EncodeFault>
    ensures ok { IfOk result (λ said. (said ≡ body + 4) × (said ≤ limit)) }
    ensures err { IfErr result (λ fault. (fault ≡ EncodeFault.TooLong (capped (body + 4))) × (limit < body + 4)) }
{
    let length = body.saturating_add(4);
    if length > u64::from(limit) {
        return Err(EncodeFault::TooLong { length });
    }
    Ok(length as u32)
}

/// Appends a type byte and a length field.
pub(crate) fn put_head(out: &mut Vec<u8>, kind: u8, said: u32) -> Result<(), AllocError>
    ensures { Appends result out.old.items out.new.items (kind ∷ int32 said) }
{
    out.reserve(said as usize + 1)?;
    put_byte(out, kind)?;
    put_u32(out, said)
}

/// Where writing failed, removes what stands after `start`.
pub(crate) fn whole_or_none(
    out: &mut Vec<u8>,
    start: usize,
    written: Result<(), AllocError>,
) -> Result<(), EncodeFault>
    ensures ok { OnOk result (IsOk written × (out.new.items ≡ out.old.items)) }
    ensures err { OnErr result (out.new.items ≡ take start out.old.items) }
    ensures memory { IfErr result (λ fault. fault ≡ EncodeFault.Memory) }
{
    match written {
        Ok(()) => Ok(()),
        Err(_) => {
            out.truncate(start);
            Err(EncodeFault::Memory)
        }
    }
}
