//! The head of a frame, which says how many bytes the frame has.
ghost use Rattle.std.specs.Prelude.{◌≡◌, ℕ, ◌+◌, ◌<◌, ◌≤◌, length, take, MatchOption};
ghost use Rattle.std.specs.Option.{option_map};
ghost use Rattle.repl_message.specs.Decoding.{number};
ghost use Rattle.repl_wire.specs.declared.fault.WireFault.{WireFault};
ghost use Rattle.repl_wire.specs.Judging.{Row, back_row, front_lengths, lengths_of};
ghost use Rattle.repl_wire.specs.Head.{head_of, sent_head, length_at, IsFrameHead, IsInRange};
ghost use Rattle.repl_wire.specs.Places.{IsFault, head};

use crate::fault::WireFault;
use repl_message::{COPY_DATA_LIMIT, MESSAGE_LIMIT, Phase, STARTUP_LEAST, STARTUP_LIMIT, Side};

/// What the head of a frame says: its type byte, which a startup packet has not, and its length field.
#[derive(Clone, Copy, Debug, PartialEq, Eq)]
pub enum Head {
    /// More bytes are needed, and nothing is refused yet.
    Short,
    /// The frame has so many bytes, those of the head among them, and 1,048,577 at most.
    Frame(usize),
    /// The type byte or the length field is refused. Its place counts from the first of the bytes.
    Wrong(WireFault),
}

/// Judges the head of the frame at the front of the bytes: the first five of them, or the first four of a startup
/// packet. It reads none after them. The type byte is judged at once, and the length field when its four bytes are
/// there: it is at least that of the shortest message of the type, and at most the limit.
pub fn judge_head(phase: Phase, bytes: &[u8]) -> Head
    // Which answer it is.
    ensures exact { result ≡ head_of phase bytes.now }
    // A fault stands at the first field with which no message goes on.
    ensures place { (fault : WireFault) → result ≡ Head.Wrong fault → IsFault phase bytes.now fault }
    // A frame's type byte and length field are those that some message may have, and give its size.
    ensures frame { (size : ℕ) → result ≡ Head.Frame size → IsFrameHead phase bytes.now size }
    // A length field that is refused is less than that of each message of the type, or above the limit.
    ensures range { (at said : ℕ) → result ≡ Head.Wrong (WireFault.Length at said) → ¬ IsInRange phase (take (head phase) bytes.now) said }
{
    match phase {
        Phase::Startup => judge_length(0, STARTUP_LEAST, STARTUP_LIMIT, bytes),
        Phase::Front => head_of_sent(Side::Front, bytes),
        Phase::Back => head_of_sent(Side::Back, bytes),
        Phase::Ended => match bytes {
            [] => Head::Short,
            [_, ..] => Head::Wrong(WireFault::Kind(0)),
        },
    }
}

/// The head of a message after the startup.
fn head_of_sent(side: Side, bytes: &[u8]) -> Head
    ensures { result ≡ sent_head side bytes.now }
{
    let Some((kind, rest)) = bytes.split_first() else {
        return Head::Short;
    };
    match lengths(side, *kind) {
        Some((least, limit)) => judge_length(1, least, limit, rest),
        None => Head::Wrong(WireFault::Kind(0)),
    }
}

/// The length field at this place, in front of these bytes. One below `least` or above `limit` is refused.
#[tactic(auto, unfolding(crate::specs::Head::length_at))]
fn judge_length(place: u8, least: u32, limit: u32, bytes: &[u8]) -> Head
    ensures { result ≡ length_at place least limit bytes.now }
{
    let Some(said) = number_at(bytes) else {
        return Head::Short;
    };
    if said < least || said > limit {
        return Head::Wrong(WireFault::Length {
            place: place as u64,
            said,
        });
    }
    Head::Frame(place as usize + said as usize)
}

/// The number in the first four bytes, where they are there.
fn number_at(bytes: &[u8]) -> Option<u32>
    ensures { MatchOption result (length bytes.now < 4) (λ n. (4 ≤ length bytes.now) × (n ≡ number bytes.now)) }
{
    match bytes {
        [a, b, c, d, ..] => Some(u32::from_be_bytes([*a, *b, *c, *d])),
        _ => None,
    }
}

/// The least and the greatest length field of a message, by its type byte.
fn lengths(side: Side, kind: u8) -> Option<(u32, u32)>
    ensures { result ≡ lengths_of side kind }
{
    match side {
        Side::Front => front_lengths(kind),
        Side::Back => back_lengths(kind),
    }
}

fn front_lengths(kind: u8) -> Option<(u32, u32)>
    ensures { result ≡ front_lengths kind }
{
    match kind {
        b'd' => Some((4, COPY_DATA_LIMIT)),
        b'c' | b'X' => Some((4, MESSAGE_LIMIT)),
        b'Q' | b'f' => Some((5, MESSAGE_LIMIT)),
        _ => None,
    }
}

fn back_lengths(kind: u8) -> Option<(u32, u32)>
    ensures { result ≡ option_map (λ (r : Row). (r.least + 4, r.limit)) (back_row kind) }
{
    match kind {
        b'c' => Some((4, MESSAGE_LIMIT)),
        b'd' => Some((4, COPY_DATA_LIMIT)),
        b'C' | b'E' | b'N' | b'Z' => Some((5, MESSAGE_LIMIT)),
        b'D' | b'S' | b'T' => Some((6, MESSAGE_LIMIT)),
        b'W' => Some((7, MESSAGE_LIMIT)),
        b'R' => Some((8, MESSAGE_LIMIT)),
        b'K' => Some((12, MESSAGE_LIMIT)),
        _ => None,
    }
}
