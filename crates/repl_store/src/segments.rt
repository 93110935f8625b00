//! The files of segments.
ghost use Rattle.std.specs.Prelude.{◌≡◌, ◌≤◌, ◌+◌, ◌*◌, ◌^◌, IfOk, string_bytes};
ghost use Rattle.repl_lsn.specs.Segment.{history_name};
ghost use Rattle.repl_store.specs.Durable.{segment_file};
ghost use Rattle.repl_text.specs.Text.{IsText};

use repl_lsn::{
    History, Lsn, SegNo, SegSize, Tli, history_name, no_other_file, seg_name, seg_start,
};
use std::alloc::{AllocError, Global};

/// The name of the file in which a segment stands, along a path. Takes memory for it.
pub fn segment_file(
    alloc: Global,
    history: &History,
    segment: SegNo,
    size: SegSize,
) -> Result<String, AllocError>
    requires { segment * size + size ≤ 2 ^ 64 }
    ensures value { IfOk result (λ name. string_bytes name ≡ segment_file size history.now segment) }
    ensures text { IfOk result (λ name. IsText (string_bytes name)) }
{
    no_other_file();
    let start = seg_start(segment, size);
    let last = Lsn(start.0 + u64::from(size.bytes() - 1));
    let Tli(timeline) = history.timeline_at(last);
    seg_name(alloc, Tli(timeline), segment, size)
}

/// The name of the file with a timeline's history. Takes memory for it.
pub fn history_file(alloc: Global, tli: Tli) -> Result<String, AllocError>
    ensures value { IfOk result (λ name. string_bytes name ≡ history_name tli) }
    ensures text { IfOk result (λ name. IsText (string_bytes name)) }
{
    no_other_file();
    let Tli(timeline) = tli;
    history_name(alloc, Tli(timeline))
}
