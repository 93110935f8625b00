ghost use Rattle.std.specs.Prelude.{◌≡◌, ℕ, List};
ghost use Rattle.repl_lsn.specs.declared.fault.HistoryFault.{HistoryFault};
ghost use Rattle.repl_lsn.specs.declared.fault.HistoryFault.TheVariants as HistoryFault;
ghost use Rattle.repl_lsn.specs.Between.{AreBetween, LiesOutside};
ghost use Rattle.repl_lsn.specs.History.{Path, SaysHistory, IsHistoryFault};

/// A text says one history of a timeline at most.
pub fn one_history()
    ensures { (text : List ℕ) (a b : Path) → SaysHistory text a → SaysHistory text b → a.own ≡ b.own → a ≡ b }
{}

/// Nothing is wrong with a text that says a history. Where the history is to lie within a log, one line is the first that
/// lies outside, or all lie within.
pub fn one_refusal()
    ensures read { (own : ℕ) (text : List ℕ) (path : Path) (fault : HistoryFault) → path.own ≡ own → SaysHistory text path
        → IsHistoryFault own text fault → fault ≡ HistoryFault.Memory }
    ensures outside { (text : List ℕ) (least most a b : ℕ) → LiesOutside text least most a → LiesOutside text least most b → a ≡ b }
    ensures within { (text : List ℕ) (path : Path) (least most at : ℕ) → SaysHistory text path → AreBetween least most path.parents
        → ¬ LiesOutside text least most at }
{}
