//! Encoding a piece of a copy's data without a second copy of its bytes.
ghost use Rattle.std.specs.Prelude.{◌≡◌, ℕ, ◌+◌, ◌<◌, ◌++◌, length, OnOk, OnErr, Err};
ghost use Rattle.repl_message.specs.declared.back.Back.{Back};
ghost use Rattle.repl_message.specs.declared.front.Front.{Front};
ghost use Rattle.repl_message.specs.declared.message.Message.{Message};
ghost use Rattle.repl_message.specs.declared.message.Phase.{Phase};
ghost use Rattle.repl_message.specs.Message.{AreBytes, Spells, data_spelling};
ghost use Rattle.repl_message.specs.Encoding.{capped, Appends};

use crate::fault::EncodeFault;
use crate::framing::{length_field, put_head, whole_or_none};
use crate::message::COPY_DATA_LIMIT;
use crate::put::put_bytes;
use std::alloc::AllocError;

/// Appends the one spelling of a CopyData whose data are a head and the bytes after it. It is the same from either
/// side. Where that is not done, `out` is as it was.
pub fn encode_copy_data(head: &[u8], bytes: &[u8], out: &mut Vec<u8>) -> Result<(), EncodeFault>
    ensures ok { OnOk result (out.new.items ≡ out.old.items ++ data_spelling (head.now ++ bytes.now)) }
    // A reader of the server's messages takes it back, and a reader of the client's.
    ensures server { OnOk result (Spells Phase.Back (Message.Back (Back.CopyData (head.now ++ bytes.now))) (data_spelling (head.now ++ bytes.now))) }
    ensures client { OnOk result (Spells Phase.Front (Message.Front (Front.CopyData (head.now ++ bytes.now))) (data_spelling (head.now ++ bytes.now))) }
    // It is refused for its length only where that is above the limit.
    ensures too_long { (n : ℕ) → result ≡ Err (EncodeFault.TooLong n) →
        (COPY_DATA_LIMIT < length (head.now ++ bytes.now) + 4) × (n ≡ capped (length (head.now ++ bytes.now) + 4)) }
    ensures err { OnErr result (out.new.items ≡ out.old.items) }
{
    let said = length_field(of_both(head, bytes), COPY_DATA_LIMIT)?;
    let start = out.len();
    let written = put_data(out, head, bytes, said);
    whole_or_none(out, start, written)
}

/// How many bytes the two have; the count stops at 2^64 - 1.
fn of_both(first: &[u8], second: &[u8]) -> u64
    ensures { result ≡ capped (length (first.now ++ second.now)) }
{
    (first.len() as u64).saturating_add(second.len() as u64)
}

/// Appends the message, whose length field this is.
fn put_data(out: &mut Vec<u8>, head: &[u8], bytes: &[u8], said: u32) -> Result<(), AllocError>
    requires { said ≡ length (head.now ++ bytes.now) + 4 }
    ensures put { Appends result out.old.items out.new.items (data_spelling (head.now ++ bytes.now)) }
    ensures fits { OnOk result (AreBytes (head.now ++ bytes.now)) }
{
    put_head(out, b'd', said)?;
    put_both(out, head, bytes)
}

fn put_both(out: &mut Vec<u8>, first: &[u8], second: &[u8]) -> Result<(), AllocError>
    ensures put { Appends result out.old.items out.new.items (first.now ++ second.now) }
    ensures fits { OnOk result (AreBytes (first.now ++ second.now)) }
{
    put_bytes(out, first)?;
    put_bytes(out, second)?;
    Ok(())
}
