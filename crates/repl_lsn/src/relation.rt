ghost use Rattle.std.specs.Prelude.{◌≡◌, ℕ, ◌↔◌, MatchOption, IsTrue};
ghost use Rattle.repl_lsn.specs.Path.{step, DifferAt, IsChild, IsRelation};

use crate::history::{History, Part};
use crate::position::Lsn;

/// How a history stands to another, whatever the reasons.
#[derive(Clone, Copy, Debug, PartialEq, Eq)]
pub enum Relation {
    /// They are of the same timeline, with the same ones before it.
    Same,
    /// The other goes on from this one, which it left at this position.
    Child { switch: Lsn },
    /// This one goes on from the other, which it left at this position.
    Parent { switch: Lsn },
    /// Neither goes on from the other. The timelines before them, and after these their own, differ at this index
    /// first, counted from 0.
    Apart { at: u64 },
}

impl History {
    /// How this history stands to the other.
    pub fn relation_to(&self, other: &History) -> Relation
        ensures { IsRelation self.now other.now result }
    {
        let shared = self.shared_parents(other);
        if let Some(switch) = self.left_for(other, shared) {
            return Relation::Child { switch };
        }
        if let Some(switch) = other.left_for(self, shared) {
            return Relation::Parent { switch };
        }
        let lengths = (
            self.parents().as_slice().len(),
            other.parents().as_slice().len(),
        );
        if lengths == (shared, shared) && self.own() == other.own() {
            Relation::Same
        } else {
            Relation::Apart { at: shared as u64 }
        }
    }

    /// How many parents both begin with, whatever the reasons.
    fn shared_parents(&self, other: &History) -> usize
        ensures { DifferAt self.now other.now result }
    {
        let ours = self.parents().as_slice();
        let theirs = other.parents().as_slice();
        let mut shared = 0;
        for (mine, its) in ours.iter().zip(theirs) {
            if !mine.is_same_step(its) {
                return shared;
            }
            shared += 1;
        }
        shared
    }

    /// Where the other, with which this one shares that many parents, left it, if it goes on from it.
    fn left_for(&self, other: &History, shared: usize) -> Option<Lsn>
        requires { DifferAt self.now other.now shared }
        ensures { MatchOption result
            ((switch : ℕ) → ¬ IsChild self.now other.now switch)
            (λ switch. IsChild self.now other.now switch) }
    {
        if self.parents().as_slice().len() != shared {
            return None;
        }
        match other.parents().as_slice().get(shared) {
            Some(part) if part.tli == self.own() => Some(part.switch),
            _ => None,
        }
    }
}

impl Part {
    /// The other is the same timeline, left at the same position, whatever the reasons.
    fn is_same_step(&self, other: &Part) -> bool
        ensures { IsTrue result ↔ (step self.now ≡ step other.now) }
    {
        self.tli == other.tli && self.switch == other.switch
    }
}
