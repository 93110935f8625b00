//! The timelines of a path: which positions each holds, which comes next, and the history of each.
ghost use Rattle.std.specs.Prelude.{◌≡◌, ℕ, ◌<◌, ◌≤◌, ◌++◌, ◌∷◌, [], length, IfOk, MatchOption, codes};
ghost use Rattle.repl_lsn.specs.History.{last_switch};
ghost use Rattle.repl_lsn.specs.Path.{IsOn, IsEndOf, EndsAt, StandsPast, HasTimeline, IsUpTo, IsNextOf, timeline_at};

use crate::copies::copy_parts;
use crate::history::{History, Line, Part, Parts};
use crate::position::Lsn;
use crate::timeline::Tli;
use std::alloc::{AllocError, Global};

impl History {
    /// The position at which the timeline was left, or `None` where it is none of those before this one's own.
    pub fn end_of(&self, tli: Tli) -> Option<Lsn>
        ensures { IsEndOf self.now tli result }
    {
        let place = self.place_of(tli)?;
        Some(self.parents().as_slice()[place].switch)
    }

    /// The timeline after one that was left, which starts where that ends. `None` for the own one and for one that is
    /// not on the path.
    pub fn next_of(&self, tli: Tli) -> Option<Tli>
        ensures { IsNextOf self.now tli result }
    {
        let place = self.place_of(tli)?;
        match self.parents().as_slice().get(place + 1) {
            Some(next) => Some(next.tli),
            None => Some(self.own()),
        }
    }

    /// How many of the timelines before this one's own stand before that one, if it is one of them.
    fn place_of(&self, tli: Tli) -> Option<usize>
        ensures { MatchOption result
            ((end : ℕ) → ¬ EndsAt self.now tli end)
            (λ place. StandsPast self.now tli place × (place < length self.now.parents)) }
    {
        for (place, part) in self.parents().as_slice().iter().enumerate() {
            if part.tli == tli {
                return Some(place);
            }
        }
        None
    }

    /// The timeline that holds the position: the first before its switch point, or the own one after the last.
    pub fn timeline_at(&self, at: Lsn) -> Tli
        ensures on { IsOn self.now result at }
        ensures value { result ≡ timeline_at self.now at }
    {
        for part in self.parents().as_slice() {
            if at < part.switch {
                return part.tli;
            }
        }
        self.own()
    }

    /// The history of a timeline that leaves this one at a position, for a promotion. Takes memory.
    pub fn child(&self, alloc: Global, tli: Tli, switch: Lsn) -> Result<History, AllocError>
        requires above { self.now.own < tli }
        requires past { last_switch self.now.parents ≤ switch }
        ensures { IfOk result (λ child. child ≡ record { own = tli; parents = self.now.parents ++ record { tli = self.now.own; switch = switch; reason = codes "promoted" } ∷ [] }) }
    {
        let mut parents = copy_parts(self.parents().as_slice(), alloc)?;
        parents.push(Part {
            tli: self.own(),
            switch,
            reason: Line::copied(alloc, b"promoted")?,
        })?;
        Ok(History::of(tli, Parts::new(parents)))
    }

    /// The history of one of the path's timelines: the path up to it. `None` for a timeline that is not on the path.
    /// Takes memory.
    pub fn up_to(&self, alloc: Global, tli: Tli) -> Result<Option<History>, AllocError>
        ensures { IfOk result (λ found. MatchOption found (¬ HasTimeline self.now tli) (λ history. IsUpTo self.now tli history)) }
    {
        if tli == self.own() {
            return Ok(Some(self.copy(alloc)?));
        }
        let Some(place) = self.place_of(tli) else {
            return Ok(None);
        };
        let before = copy_parts(&self.parents().as_slice()[..place], alloc)?;
        Ok(Some(History::of(tli, Parts::new(before))))
    }
}
