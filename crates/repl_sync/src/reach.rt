//! Up to which position the list is met.
ghost use Rattle.std.specs.Prelude.{◌≡◌, ◌↔◌, ◌≤◌, IsTrue, MatchOption};
ghost use Rattle.repl_sync.specs.Inside.{IsReach};

use repl_lsn::Lsn;
use repl_names::{Candidate, Mode, StandbyList, released};

/// Up to which position the list is met in each mode, by these candidates.
#[derive(Drop)]
pub(crate) struct Reach {
    write: Option<Lsn>,
    flush: Option<Lsn>,
    apply: Option<Lsn>,
}

impl Reach {
    ghost use Rattle.repl_sync.specs.Inside.{IsReach, reach_in};

    /// What the list is met at by these candidates. Takes no memory.
    pub(crate) fn of(list: &StandbyList, candidates: &[Candidate]) -> Reach
        ensures write { IsReach list.now candidates.now Mode.Write result.write }
        ensures flush { IsReach list.now candidates.now Mode.Flush result.flush }
        ensures apply { IsReach list.now candidates.now Mode.Apply result.apply }
    {
        Reach {
            write: met_up_to(list, candidates, Mode::Write),
            flush: met_up_to(list, candidates, Mode::Flush),
            apply: met_up_to(list, candidates, Mode::Apply),
        }
    }

    /// Up to which position the list is met in this mode.
    fn in_mode(&self, mode: Mode) -> Option<Lsn>
        ensures { result ≡ reach_in self.now mode }
    {
        match mode {
            Mode::Write => self.write,
            Mode::Flush => self.flush,
            Mode::Apply => self.apply,
        }
    }

    /// Whether the list is met at this position.
    pub(crate) fn is_met(&self, mode: Mode, end: u64) -> bool
        ensures { IsTrue result ↔ MatchOption (reach_in self.now mode) ⊥ (λ greatest. end ≤ greatest) }
    {
        match self.in_mode(mode) {
            Some(greatest) => end <= greatest.0,
            None => false,
        }
    }
}

/// The position up to which the list is met. The list without names is met at every position.
fn met_up_to(list: &StandbyList, candidates: &[Candidate], mode: Mode) -> Option<Lsn>
    ensures { IsReach list.now candidates.now mode result }
{
    if list.names().as_slice().is_empty() {
        return Some(Lsn(u64::MAX));
    }
    released(list, candidates, mode)
}
