//! What the encoders of both sides append. Where an appending function fails, it may have added some bytes.
ghost use Rattle.std.specs.Prelude.{◌∷◌, ◌++◌, ◌<◌, ◌^◌, [], OnOk, FitsSigned};
ghost use Rattle.std.specs.Int.{w16, w32};
ghost use Rattle.repl_text.specs.Text.{IsText};
ghost use Rattle.repl_message.specs.Message.{string, int16, int32, signed16, signed32, AreBytes};
ghost use Rattle.repl_message.specs.Encoding.{Appends};

use repl_text::Text;
use std::alloc::AllocError;

pub(crate) fn put_byte(out: &mut Vec<u8>, byte: u8) -> Result<(), AllocError>
    ensures { Appends result out.old.items out.new.items (byte ∷ []) }
{
    out.push(byte)?;
    Ok(())
}

pub(crate) fn put_bytes(out: &mut Vec<u8>, bytes: &[u8]) -> Result<(), AllocError>
    ensures put { Appends result out.old.items out.new.items bytes.now }
    ensures fits { OnOk result (AreBytes bytes.now) }
{
    out.extend_from_slice(bytes)
}

pub(crate) fn put_u16(out: &mut Vec<u8>, number: u16) -> Result<(), AllocError>
    ensures put { Appends result out.old.items out.new.items (int16 number) }
    ensures fits { number < 2 ^ 16 }
{
    out.extend_from_slice(&number.to_be_bytes())
}

pub(crate) fn put_u32(out: &mut Vec<u8>, number: u32) -> Result<(), AllocError>
    ensures put { Appends result out.old.items out.new.items (int32 number) }
    ensures fits { number < 2 ^ 32 }
{
    out.extend_from_slice(&number.to_be_bytes())
}

pub(crate) fn put_i16(out: &mut Vec<u8>, number: i16) -> Result<(), AllocError>
    ensures put { Appends result out.old.items out.new.items (signed16 number) }
    ensures fits { FitsSigned w16 number }
{
    out.extend_from_slice(&number.to_be_bytes())
}

pub(crate) fn put_i32(out: &mut Vec<u8>, number: i32) -> Result<(), AllocError>
    ensures put { Appends result out.old.items out.new.items (signed32 number) }
    ensures fits { FitsSigned w32 number }
{
    out.extend_from_slice(&number.to_be_bytes())
}

/// Appends a number of four bytes and another.
pub(crate) fn put_pair(out: &mut Vec<u8>, first: u32, second: u32) -> Result<(), AllocError>
    ensures put { Appends result out.old.items out.new.items (int32 first ++ int32 second) }
    ensures fits { (first < 2 ^ 32) × (second < 2 ^ 32) }
{
    put_u32(out, first)?;
    put_u32(out, second)?;
    Ok(())
}

pub(crate) fn put_string(out: &mut Vec<u8>, text: &Text) -> Result<(), AllocError>
    ensures put { Appends result out.old.items out.new.items (string text.now) }
    ensures fits { OnOk result (IsText text.now) }
{
    out.extend_from_slice(text.as_slice())?;
    out.push(0)?;
    Ok(())
}

/// Appends a string and another.
pub(crate) fn put_strings(out: &mut Vec<u8>, first: &Text, second: &Text) -> Result<(), AllocError>
    ensures put { Appends result out.old.items out.new.items (string first.now ++ string second.now) }
    ensures fits { OnOk result (IsText first.now × IsText second.now) }
{
    put_string(out, first)?;
    put_string(out, second)
}
