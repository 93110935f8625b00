ghost use Rattle.std.specs.Prelude.{◌≡◌, ◌+◌, ◌-◌, ◌%◌, ◌↔◌, ◌++◌, ℕ, List, length, take, drop};
ghost use Rattle.repl_lsn.specs.Segment.{IsSegSize};
ghost use Rattle.repl_page.specs.declared.ident.Ident.{Ident};
ghost use Rattle.repl_record.specs.declared.answer.WalkReason.{WalkReason};
ghost use Rattle.repl_record.specs.declared.record.RecordIn.{RecordIn};
ghost use Rattle.repl_record.specs.Record.{IsImage, start_of};
ghost use Rattle.repl_record.specs.Log.{IsPrefixOfRecords, IsWholeEnd, RecordEnd};
ghost use Rattle.repl_walk.specs.Faults.{HasFault, IsFaultPast};

/// A log that has a fault is no prefix of records, however it goes on.
pub fn fault_refutes_prefix()
    ensures { (ident : Ident) (timeline : ℕ → ℕ) (from prev : ℕ) (log more : List ℕ) (at : ℕ) (reason : WalkReason) → IsSegSize ident.size → from % 8 ≡ 0
        → HasFault ident timeline from prev log at reason → ¬ IsPrefixOfRecords ident timeline from prev (log ++ more) }
{}

/// Where bytes are added, a fault remains, after the same record.
pub fn more_keeps_faults()
    ensures { (ident : Ident) (timeline : ℕ → ℕ) (from prev : ℕ) (log more : List ℕ) (end last at : ℕ) (reason : WalkReason)
        → IsFaultPast ident timeline from prev log end last at reason → IsFaultPast ident timeline from prev (log ++ more) end last at reason }
{}

/// The record end before a fault is the greatest.
pub fn fault_has_the_greatest_end()
    ensures { (ident : Ident) (timeline : ℕ → ℕ) (from prev : ℕ) (log : List ℕ) (end last at : ℕ) (reason : WalkReason) → IsSegSize ident.size → from % 8 ≡ 0
        → IsFaultPast ident timeline from prev log end last at reason → IsWholeEnd ident timeline from prev log end last }
{}

/// A log has one fault at most.
pub fn one_fault()
    ensures { (ident : Ident) (timeline : ℕ → ℕ) (from prev : ℕ) (log : List ℕ) (at other : ℕ) (reason another : WalkReason) → IsSegSize ident.size → from % 8 ≡ 0
        → HasFault ident timeline from prev log at reason → HasFault ident timeline from prev log other another → (at ≡ other) × (reason ≡ another) }
{}

/// A prefix of records that is cut is one.
pub fn cut_keeps_prefix()
    ensures { (ident : Ident) (timeline : ℕ → ℕ) (from prev : ℕ) (log : List ℕ) (c : ℕ) → IsSegSize ident.size → from % 8 ≡ 0
        → IsPrefixOfRecords ident timeline from prev log → IsPrefixOfRecords ident timeline from prev (take c log) }
{}

/// What ends past a record end, counted from there, ends in the log. With `ends_in_line` the record ends from a pair on,
/// of a record's end and its start, are those of the log.
pub fn ends_join()
    ensures { (ident : Ident) (timeline : ℕ → ℕ) (from prev : ℕ) (log : List ℕ) (end last later start : ℕ)
        → RecordEnd ident timeline from prev log end last → RecordEnd ident timeline end last (drop (end - from) log) later start
        → RecordEnd ident timeline from prev log later start }
{}

/// So the log is a prefix of records where it is one from a record end on.
pub fn prefix_past_an_end()
    ensures { (ident : Ident) (timeline : ℕ → ℕ) (from prev : ℕ) (log : List ℕ) (end last : ℕ) → IsSegSize ident.size → from % 8 ≡ 0
        → RecordEnd ident timeline from prev log end last
        → IsPrefixOfRecords ident timeline from prev log ↔ IsPrefixOfRecords ident timeline end last (drop (end - from) log) }
{}

/// And the greatest record end is the same.
pub fn whole_end_past_an_end()
    ensures { (ident : Ident) (timeline : ℕ → ℕ) (from prev : ℕ) (log : List ℕ) (end last whole start : ℕ) → IsSegSize ident.size → from % 8 ≡ 0
        → RecordEnd ident timeline from prev log end last
        → IsWholeEnd ident timeline from prev log whole start ↔ IsWholeEnd ident timeline end last (drop (end - from) log) whole start }
{}

/// Where the log ends with a record, it goes on with an image: its end is a record's, and the log is still no more than
/// records.
pub fn ends_go_on()
    ensures image { (ident : Ident) (timeline : ℕ → ℕ) (from prev : ℕ) (log bytes : List ℕ) (last : ℕ) (item : RecordIn)
        → RecordEnd ident timeline from prev log (from + length log) last → IsImage ident timeline (from + length log) last item bytes
        → RecordEnd ident timeline from prev (log ++ bytes) (from + length (log ++ bytes)) (start_of ident.size (from + length log)) }
    ensures prefix { (ident : Ident) (timeline : ℕ → ℕ) (from prev : ℕ) (log : List ℕ) (last : ℕ)
        → RecordEnd ident timeline from prev log (from + length log) last → IsPrefixOfRecords ident timeline from prev log }
{}
