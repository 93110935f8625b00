ghost use Rattle.std.specs.Prelude.{◌≡◌, ℕ, ◌^◌, ◌<◌, List};
ghost use Rattle.repl_lsn.specs.Position.{Spells, IsCanonical, position_text};

/// A text spells one position at most.
pub fn one_value()
    ensures { (text : List ℕ) (a b : ℕ) → Spells text a → Spells text b → a ≡ b }
{}

/// A position has one canonical text.
pub fn one_canonical_text()
    ensures { (a b : List ℕ) (position : ℕ) → IsCanonical a position → IsCanonical b position → a ≡ b }
{}

/// The text printed of a position spells it. With `one_value`: what `Lsn::text` prints, `Lsn::parse` reads
/// as the same position, and two positions that print alike are one.
pub fn text_spells()
    ensures { (position : ℕ) → position < 2 ^ 64 → Spells (position_text position) position }
{}
