//! When lines, parts and histories are equal.
ghost use Rattle.std.specs.Prelude.{◌≡◌, ◌↔◌, ◌==◌, IsTrue};
ghost use Rattle.std.specs.Cmp.Lexicographic.{pointwise};
ghost use Rattle.std.specs.Cmp.Rules.{comparing};
ghost use Rattle.std.proofs.Common.{rules};
ghost use Rattle.std.specs.Cmp.{partial_equiv_from_equiv};
ghost use Rattle.repl_lsn.specs.Equality.{part_eq, part_eq_is, parts_eq_is, path_eq, path_eq_is};

use crate::history::{History, Line, Part, Parts};

/// Lines are equal where their bytes are.
impl PartialEq for Line {
    ghost eq = { pointwise ◌==◌ };

    ghost laws = { Prim.search (comparing, rules) };

    fn eq(&self, other: &Line) -> bool
        ensures { IsTrue result ↔ (self.now ≡ other.now) }
    {
        self.as_slice() == other.as_slice()
    }
}

impl Eq for Line {
    ghost laws = { Prim.search (comparing, rules) };
}

/// Parts are equal where their numbers, switch points and reasons are.
impl PartialEq for Part {
    ghost eq = { part_eq };

    ghost laws = { partial_equiv_from_equiv part_eq_is };

    fn eq(&self, other: &Part) -> bool
        ensures { IsTrue result ↔ (self.now ≡ other.now) }
    {
        self.tli == other.tli && self.switch == other.switch && self.reason == other.reason
    }
}

impl Eq for Part {
    ghost laws = { part_eq_is };
}

impl PartialEq for Parts {
    ghost eq = { pointwise part_eq };

    ghost laws = { partial_equiv_from_equiv parts_eq_is };

    fn eq(&self, other: &Parts) -> bool
        ensures test { result ≡ pointwise part_eq self.now other.now }
        ensures same { IsTrue result ↔ (self.now ≡ other.now) }
    {
        self.as_slice() == other.as_slice()
    }
}

impl Eq for Parts {
    ghost laws = { parts_eq_is };
}

/// Histories are equal where their own numbers and the parts before them are, reasons included.
impl PartialEq for History {
    ghost eq = { path_eq };

    ghost laws = { partial_equiv_from_equiv path_eq_is };

    fn eq(&self, other: &History) -> bool
        ensures test { result ≡ path_eq self.now other.now }
        ensures same { IsTrue result ↔ (self.now ≡ other.now) }
    {
        self.own() == other.own() && self.parents() == other.parents()
    }
}

impl Eq for History {
    ghost laws = { path_eq_is };
}
