//! Texts, positions, segments and timelines.
ghost use Rattle.std.specs.Prelude.{◌≡◌};

use crate::crossing::there_and_back;
use repl_lsn::{History, Line, Lsn, Part, Parts, SegNo, SegSize, Tli};
use repl_text::Text;
use std::thread::Threads;

/// A string of the protocol, and why a timeline was left.
pub fn hand_texts<R: Threads>(rt: &R, text: Text, line: Line) -> (Text, Line)
    ensures { result ≡ (text, line) }
{
    (there_and_back(rt, text), there_and_back(rt, line))
}

/// A position and a timeline.
pub fn hand_positions<R: Threads>(rt: &R, lsn: Lsn, tli: Tli) -> (Lsn, Tli)
    ensures { result ≡ (lsn, tli) }
{
    (there_and_back(rt, lsn), there_and_back(rt, tli))
}

/// A segment, and how large segments are.
pub fn hand_segments<R: Threads>(rt: &R, number: SegNo, size: SegSize) -> (SegNo, SegSize)
    ensures { result ≡ (number, size) }
{
    (there_and_back(rt, number), there_and_back(rt, size))
}

/// A timeline that was left, several of them, and a path through the log.
pub fn hand_histories<R: Threads>(
    rt: &R,
    part: Part,
    parts: Parts,
    history: History,
) -> (Part, Parts, History)
    ensures { result ≡ (part, parts, history) }
{
    (
        there_and_back(rt, part),
        there_and_back(rt, parts),
        there_and_back(rt, history),
    )
}
