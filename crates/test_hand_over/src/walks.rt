//! Records of the log, and walks over them.
ghost use Rattle.std.specs.Prelude.{◌≡◌};

use crate::crossing::there_and_back;
use repl_record::{Laid, RecordIn, WalkReason, WalkStep, Walker};
use repl_walk::{Rest, RestStep, WalkFault};
use std::thread::Threads;

/// A record, before and after it is laid out.
pub fn hand_records<R: Threads>(rt: &R, record_in: RecordIn, laid: Laid) -> (RecordIn, Laid)
    ensures { result ≡ (record_in, laid) }
{
    (there_and_back(rt, record_in), there_and_back(rt, laid))
}

/// A walk over the log, and one over the rest of a record.
pub fn hand_walkers<R: Threads>(rt: &R, walker: Walker, rest: Rest) -> (Walker, Rest)
    ensures { result ≡ (walker, rest) }
{
    (there_and_back(rt, walker), there_and_back(rt, rest))
}

/// What walks answer.
pub fn hand_answers<R: Threads>(
    rt: &R,
    step: WalkStep,
    reason: WalkReason,
    rest: RestStep,
    fault: WalkFault,
) -> (WalkStep, WalkReason, RestStep, WalkFault)
    ensures { result ≡ (step, reason, rest, fault) }
{
    (
        there_and_back(rt, step),
        there_and_back(rt, reason),
        there_and_back(rt, rest),
        there_and_back(rt, fault),
    )
}
