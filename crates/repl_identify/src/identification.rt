ghost use Rattle.repl_identify.specs.Identify.{Identified};

use crate::answering::Answering;
use crate::identity::SystemIdentity;
use repl_filter::{Converted, convert};
use repl_io::{Sink, Source};
use std::alloc::Global;

/// Answers the input where it is one session of a client that asks for IDENTIFY_SYSTEM any number of times, as the server
/// with this system identifier would, on this timeline and flushed up to this position. Requests for encryption before the
/// session are answered by `N`.
///
/// Where the input is no session, `Refused` says where the first packet or message begins that is not allowed or not whole,
/// in bytes from 0, and nothing is written. Reads up to `INPUT_LIMIT` bytes, and takes memory for them and for the answer.
pub fn identify<S: Source, K: Sink>(
    alloc: Global,
    identity: &SystemIdentity,
    input: &mut S,
    out: &mut K,
) -> Converted
    ensures { Identified identity.now result (S.source input.old) (S.source input.new) (K.sink out.old) (K.sink out.new) }
{
    let answering = Answering::new(identity);
    convert(alloc, &answering, input, out)
}
