ghost use Rattle.std.specs.Prelude.{◌≡◌, ◌+◌, ◌-◌, ◌%◌, ◌^◌, ◌<◌, ◌≤◌, ◌++◌, ℕ, List, length, take};
ghost use Rattle.repl_lsn.specs.Segment.{IsSegSize};
ghost use Rattle.repl_page.specs.declared.ident.Ident.{Ident};
ghost use Rattle.repl_record.specs.declared.record.RecordIn.{RecordIn};
ghost use Rattle.repl_record.specs.declared.answer.WalkStep.{WalkStep};
ghost use Rattle.repl_record.specs.Record.{IsImage, start_of};
ghost use Rattle.repl_record.specs.Judging.{Answers, IsSameAnswer};
ghost use Rattle.repl_record.specs.Log.{RecordEnd};

/// The log from a record's image on has one answer. So it does not matter in what pieces a walker is given it.
pub fn one_answer()
    ensures { (ident : Ident) (timeline : ℕ → ℕ) (from prev : ℕ) (log : List ℕ) (a b : WalkStep) → IsSegSize ident.size → from % 8 ≡ 0
        → Answers ident timeline from prev log a → Answers ident timeline from prev log b → IsSameAnswer a b }
{}

/// Where a record's image stands at the front of the log, its end is the answer: nothing is wrong in an image, and no
/// record ends before it does.
pub fn image_is_answered()
    ensures { (ident : Ident) (timeline : ℕ → ℕ) (from prev : ℕ) (item : RecordIn) (log : List ℕ) (n used : ℕ) → IsSegSize ident.size → from % 8 ≡ 0 → n ≤ length log
        → IsImage ident timeline from prev item (take n log) → Answers ident timeline from prev log (WalkStep.Whole (start_of ident.size from) (from + n) used) }
{}

/// From one start there is at most one end.
pub fn one_end()
    ensures { (ident : Ident) (timeline : ℕ → ℕ) (from prev : ℕ) (a b : RecordIn) (log : List ℕ) (m n : ℕ) → IsSegSize ident.size → from % 8 ≡ 0 → m ≤ length log → n ≤ length log
        → IsImage ident timeline from prev a (take m log) → IsImage ident timeline from prev b (take n log) → m ≡ n }
{}

/// Where the log is cut, the record ends up to there remain, and no others come.
pub fn cut_keeps_ends()
    ensures kept { (ident : Ident) (timeline : ℕ → ℕ) (from prev : ℕ) (log : List ℕ) (c end last : ℕ)
        → RecordEnd ident timeline from prev log end last → end ≤ from + c → RecordEnd ident timeline from prev (take c log) end last }
    ensures only { (ident : Ident) (timeline : ℕ → ℕ) (from prev : ℕ) (log : List ℕ) (c end last : ℕ)
        → RecordEnd ident timeline from prev (take c log) end last → RecordEnd ident timeline from prev log end last × (end ≤ from + c) }
{}

/// Where bytes are added to the log, all record ends remain.
pub fn more_keeps_ends()
    ensures { (ident : Ident) (timeline : ℕ → ℕ) (from prev : ℕ) (log more : List ℕ) (end last : ℕ)
        → RecordEnd ident timeline from prev log end last → RecordEnd ident timeline from prev (log ++ more) end last }
{}
