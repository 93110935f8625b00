ghost use Rattle.std.specs.Prelude.{◌≡◌, ℕ, List};
ghost use Rattle.repl_lsn.specs.Segment.{IsSegSize};
ghost use Rattle.repl_page.specs.declared.ident.Ident.{Ident};
ghost use Rattle.repl_page.specs.Page.{IsPage};
ghost use Rattle.repl_check.specs.declared.flaw.Flaw.{Flaw};
ghost use Rattle.repl_check.specs.Fits.{Fits};
ghost use Rattle.repl_check.specs.Flaws.{IsFlaw};

/// A log that fits has no flaw.
pub fn fits_without_flaw()
    ensures { (ident : Ident) (timeline : ℕ → ℕ) (floor : ℕ) (log : List ℕ) (whole stored : ℕ) (flaw : Flaw) → IsSegSize ident.size → IsPage floor
        → Fits ident timeline floor log whole stored → ¬ IsFlaw ident timeline floor log whole stored flaw }
{}

/// A log has one flaw at most.
pub fn one_flaw()
    ensures { (ident : Ident) (timeline : ℕ → ℕ) (floor : ℕ) (log : List ℕ) (whole stored : ℕ) (flaw other : Flaw) → IsSegSize ident.size → IsPage floor
        → IsFlaw ident timeline floor log whole stored flaw → IsFlaw ident timeline floor log whole stored other → flaw ≡ other }
{}
