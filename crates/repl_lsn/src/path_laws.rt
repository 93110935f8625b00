ghost use Rattle.std.specs.Prelude.{◌≡◌, ℕ, ◌<◌, ◌≤◌, ◌⊎◌, ◌↔◌, List, ◌++◌, ◌∷◌, [], Option, Some, codes, length};
ghost use Rattle.repl_lsn.specs.declared.history.Part.{Part};
ghost use Rattle.repl_lsn.specs.declared.relation.Relation.{Relation};
ghost use Rattle.repl_lsn.specs.declared.relation.Relation.TheVariants as Relation;
ghost use Rattle.repl_lsn.specs.History.{Path, IsPath, last_switch};
ghost use Rattle.repl_lsn.specs.Path.{IsOn, IsEndOf, IsBelow, IsChild, IsRelation, IsUpTo, IsNext, EndsAt, Holds, timeline_at};

/// A position is on one timeline of a path, and not past where that ends.
pub fn one_timeline()
    ensures one { (path : Path) (at a b : ℕ) → IsPath path → IsOn path a at → IsOn path b at → a ≡ b }
    ensures end { (path : Path) (at tli end : ℕ) → IsPath path → IsOn path tli at → IsEndOf path tli (Some end) → at < end }
{}

/// Two histories stand to each other in one way, and the other way round if they are looked at from the other side.
pub fn one_relation()
    ensures one { (a b : Path) (r s : Relation) → IsPath a → IsPath b → IsRelation a b r → IsRelation a b s → r ≡ s }
    ensures child { (a b : Path) (switch : ℕ) → IsRelation a b (Relation.Child switch) → IsRelation b a (Relation.Parent switch) }
    ensures parent { (a b : Path) (switch : ℕ) → IsRelation a b (Relation.Parent switch) → IsRelation b a (Relation.Child switch) }
{}

/// A history that goes on from another has its timelines at every position before that was left.
pub fn same_before_switch()
    ensures { (a b : Path) (switch at tli : ℕ) → IsPath a → IsPath b → IsChild a b switch → at < switch → IsOn a tli at → IsOn b tli at }
{}

/// A history and the one that a promotion makes of it are parent and child.
pub fn child_is_child()
    ensures { (path : Path) (tli switch : ℕ) → path.own < tli → last_switch path.parents ≤ switch →
        IsRelation path (record { own = tli; parents = path.parents ++ record { tli = path.own; switch = switch; reason = codes "promoted" } ∷ [] }) (Relation.Child switch) }
{}

/// The timeline of a position is a function of path and position, which says what `IsOn` does. At and above the last
/// switch point it is the own one, a timeline holds all positions from its start up to its end, and a history that goes
/// on from another agrees with it before that was left.
pub fn timeline_of_position()
    ensures is_on { (path : Path) (tli at : ℕ) → IsPath path → IsOn path tli at ↔ (tli ≡ timeline_at path at) }
    ensures own { (path : Path) (at : ℕ) → IsPath path → last_switch path.parents ≤ at → timeline_at path at ≡ path.own }
    ensures interval { (path : Path) (tli start at : ℕ) (end : Option ℕ) → IsPath path → Holds 0 path.parents path.own tli start end
        → start ≤ at → IsBelow at end → timeline_at path at ≡ tli }
    ensures child { (a b : Path) (switch at : ℕ) → IsPath a → IsPath b → IsChild a b switch → at < switch
        → timeline_at a at ≡ timeline_at b at }
{}

/// The history of a timeline on a path is a path, and the path is it or goes on from it, where the timeline was left.
pub fn path_goes_on()
    ensures { (path history : Path) (tli : ℕ) → IsPath path → IsUpTo path tli history
        → IsPath history × ((history ≡ path) ⊎ ((switch : ℕ) × EndsAt path tli switch × IsChild history path switch)) }
{}

/// A timeline on a path has one history, so `up_to` has one answer.
pub fn one_up_to()
    ensures { (path a b : Path) (tli : ℕ) → IsPath path → IsUpTo path tli a → IsUpTo path tli b → a ≡ b }
{}

/// The next timeline starts where the one before it ends.
pub fn next_begins()
    ensures { (path : Path) (tli next : ℕ) → IsNext path tli next
        → (switch : ℕ) × (end : Option ℕ) × EndsAt path tli switch × Holds 0 path.parents path.own next switch end }
{}
