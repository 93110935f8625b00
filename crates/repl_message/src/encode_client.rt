//! Encoding what a client sends.
ghost use Rattle.std.specs.Prelude.{◌≡◌, ℕ, ◌+◌, ◌<◌, ◌≤◌, ◌++◌, length, OnOk, OnErr, Err, List};
ghost use Rattle.repl_message.specs.Message.{pair, ended, startup_body, startup_spelling, front_kind, front_body, front_spelling, front_limit, FitsPair, FitsStartup, FitsFront, Spells};
ghost use Rattle.repl_message.specs.Encoding.{capped, Appends};
ghost use Rattle.repl_message.specs.declared.message.Message.{Message};
ghost use Rattle.std.specs.List.{AllByRecursion};
ghost use Rattle.repl_message.specs.declared.message.Phase.{Phase};

use crate::fault::EncodeFault;
use crate::framing::{length_field, put_head, whole_or_none};
use crate::front::Front;
use crate::lengths::{of_front_body, of_startup_body};
use crate::message::{COPY_DATA_LIMIT, MESSAGE_LIMIT, STARTUP_LIMIT};
use crate::put::{put_bytes, put_pair, put_string, put_strings, put_u32};
use crate::startup::{CANCEL_REQUEST, GSS_REQUEST, PROTOCOL_3_0, Pairs, SSL_REQUEST, Startup};
use std::alloc::AllocError;

/// Appends the one spelling of a startup packet. Where that is not done, `out` is as it was.
///
/// The length field is never below `STARTUP_LEAST`, since every packet has a code.
pub fn encode_startup(message: &Startup, out: &mut Vec<u8>) -> Result<(), EncodeFault>
    ensures ok { OnOk result (out.new.items ≡ out.old.items ++ startup_spelling message.now) }
    // A reader of startup packets takes it back.
    ensures read { OnOk result (Spells Phase.Startup (Message.Startup message.now) (startup_spelling message.now)) }
    // The length field is above its limit exactly where the packet is refused for it.
    ensures within { OnOk result (length (startup_body message.now) + 4 ≤ STARTUP_LIMIT) }
    ensures too_long { (n : ℕ) → result ≡ Err (EncodeFault.TooLong n) →
        (STARTUP_LIMIT < length (startup_body message.now) + 4) × (n ≡ capped (length (startup_body message.now) + 4)) }
    ensures err { OnErr result (out.new.items ≡ out.old.items) }
{
    let said = length_field(of_startup_body(message), STARTUP_LIMIT)?;
    let start = out.len();
    let written = put_startup(out, message, said);
    whole_or_none(out, start, written)
}

/// Appends the packet, whose length field this is.
fn put_startup(out: &mut Vec<u8>, message: &Startup, said: u32) -> Result<(), AllocError>
    requires { said ≡ length (startup_body message.now) + 4 }
    ensures put { Appends result out.old.items out.new.items (startup_spelling message.now) }
    ensures fits { OnOk result (FitsStartup message.now) }
{
    out.reserve(said as usize)?;
    put_u32(out, said)?;
    put_startup_body(out, message)
}

fn put_startup_body(out: &mut Vec<u8>, message: &Startup) -> Result<(), AllocError>
    ensures put { Appends result out.old.items out.new.items (startup_body message.now) }
    ensures fits { OnOk result (FitsStartup message.now) }
{
    match message {
        Startup::Params(pairs) => {
            put_u32(out, PROTOCOL_3_0)?;
            put_parameters(out, pairs)
        }
        Startup::Ssl => put_u32(out, SSL_REQUEST),
        Startup::Gss => put_u32(out, GSS_REQUEST),
        Startup::Cancel { pid, key } => {
            put_u32(out, CANCEL_REQUEST)?;
            put_pair(out, *pid, *key)
        }
    }
}

fn put_parameters(out: &mut Vec<u8>, pairs: &Pairs) -> Result<(), AllocError>
    ensures put { Appends result out.old.items out.new.items (ended pair pairs.now) }
    ensures fits { OnOk result (AllByRecursion FitsPair pairs.now) }
{
    for entry in pairs.as_slice() {
        put_strings(out, &entry.name, &entry.value)?;
    }
    out.push(0)?;
    Ok(())
}

/// Appends the one spelling of a client's message. Where that is not done, `out` is as it was.
pub fn encode_front(message: &Front, out: &mut Vec<u8>) -> Result<(), EncodeFault>
    ensures ok { OnOk result (out.new.items ≡ out.old.items ++ front_spelling message.now) }
    // A reader of the client's messages takes it back.
    ensures read { OnOk result (Spells Phase.Front (Message.Front message.now) (front_spelling message.now)) }
    // The length field is above its limit exactly where the message is refused for it.
    ensures within { OnOk result (length (front_body message.now) + 4 ≤ front_limit message.now) }
    ensures too_long { (n : ℕ) → result ≡ Err (EncodeFault.TooLong n) →
        (front_limit message.now < length (front_body message.now) + 4) × (n ≡ capped (length (front_body message.now) + 4)) }
    ensures err { OnErr result (out.new.items ≡ out.old.items) }
{
    let said = length_field(of_front_body(message), limit_of(message))?;
    let start = out.len();
    let written = put_front(out, message, said);
    whole_or_none(out, start, written)
}

/// The greatest length field of the message.
fn limit_of(message: &Front) -> u32
    ensures { result ≡ front_limit message.now }
{
    match message {
        Front::CopyData(_) => COPY_DATA_LIMIT,
        Front::Query(_) | Front::CopyDone | Front::CopyFail(_) | Front::Terminate => MESSAGE_LIMIT,
    }
}

/// Appends the message, whose length field this is.
fn put_front(out: &mut Vec<u8>, message: &Front, said: u32) -> Result<(), AllocError>
    requires { said ≡ length (front_body message.now) + 4 }
    ensures put { Appends result out.old.items out.new.items (front_spelling message.now) }
    ensures fits { OnOk result (FitsFront message.now) }
{
    put_head(out, kind_of(message), said)?;
    put_front_body(out, message)
}

/// The message's type byte.
fn kind_of(message: &Front) -> u8
    ensures { result ≡ front_kind message.now }
{
    match message {
        Front::Query(_) => b'Q',
        Front::CopyData(_) => b'd',
        Front::CopyDone => b'c',
        Front::CopyFail(_) => b'f',
        Front::Terminate => b'X',
    }
}

fn put_front_body(out: &mut Vec<u8>, message: &Front) -> Result<(), AllocError>
    ensures put { Appends result out.old.items out.new.items (front_body message.now) }
    ensures fits { OnOk result (FitsFront message.now) }
{
    match message {
        Front::Query(text) | Front::CopyFail(text) => put_string(out, text),
        Front::CopyData(bytes) => put_bytes(out, bytes.as_slice()),
        Front::CopyDone | Front::Terminate => Ok(()),
    }
}
