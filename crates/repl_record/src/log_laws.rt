ghost use Rattle.std.specs.Prelude.{◌≡◌, ◌-◌, ◌%◌, ◌≤◌, ℕ, List, drop};
ghost use Rattle.repl_lsn.specs.Segment.{IsSegSize};
ghost use Rattle.repl_page.specs.declared.ident.Ident.{Ident};
ghost use Rattle.repl_record.specs.Log.{RecordEnd, IsPrefixOfRecords, IsWholeEnd};

/// Record ends stand in one line: of two, the later is counted from the earlier as well as from the log's beginning. So
/// whoever keeps a record end, and where that record starts, needs nothing of the log before it.
pub fn ends_in_line()
    ensures { (ident : Ident) (timeline : ℕ → ℕ) (from prev : ℕ) (log : List ℕ) (end last later start : ℕ) → IsSegSize ident.size → from % 8 ≡ 0
        → RecordEnd ident timeline from prev log end last → RecordEnd ident timeline from prev log later start → end ≤ later
        → RecordEnd ident timeline end last (drop (end - from) log) later start }
{}

/// A record that ends at a position is one: its start is known.
pub fn one_last()
    ensures { (ident : Ident) (timeline : ℕ → ℕ) (from prev : ℕ) (log : List ℕ) (end last start : ℕ) → IsSegSize ident.size → from % 8 ≡ 0
        → RecordEnd ident timeline from prev log end last → RecordEnd ident timeline from prev log end start → last ≡ start }
{}

/// Where the log is records and then the beginning of one, the last of these ends is the greatest of all.
pub fn prefix_has_the_greatest_end()
    ensures { (ident : Ident) (timeline : ℕ → ℕ) (from prev : ℕ) (log : List ℕ) → IsSegSize ident.size → from % 8 ≡ 0
        → (records : IsPrefixOfRecords ident timeline from prev log) → IsWholeEnd ident timeline from prev log records.end records.last }
{}
