ghost use Rattle.std.specs.Prelude.{ℕ, List, length};
ghost use Rattle.repl_page.specs.declared.ident.Ident.{Ident};
ghost use Rattle.repl_record.specs.declared.record.RecordIn.{RecordIn};
ghost use Rattle.repl_record.specs.declared.walker.Walker.{Walker};
ghost use Rattle.repl_record.specs.Record.{IsImage};
ghost use Rattle.repl_record.specs.Log.{IsPrefixOfRecords, RecordEnd};
ghost use Rattle.repl_walk.specs.Timelines.{AreAlike};
ghost use Rattle.repl_walk.specs.Walks.{HasWalked};

/// An image is one along each path by which its pages are on the same timelines: what is laid out on one timeline is the
/// image on every path that has this timeline from there on.
pub fn alike_image()
    ensures { (ident : Ident) (timeline other : ℕ → ℕ) (from prev : ℕ) (item : RecordIn) (log : List ℕ) → AreAlike timeline other from (length log)
        → IsImage ident timeline from prev item log → IsImage ident other from prev item log }
{}

/// Two paths that are one up to the log's end have the same record ends there: what a path goes on with after the log
/// changes none.
pub fn alike_ends()
    ensures { (ident : Ident) (timeline other : ℕ → ℕ) (from prev : ℕ) (log : List ℕ) (end last : ℕ) → AreAlike timeline other from (length log)
        → RecordEnd ident timeline from prev log end last → RecordEnd ident other from prev log end last }
{}

/// Along both the log is a prefix of records, or along neither.
pub fn alike_prefix()
    ensures { (ident : Ident) (timeline other : ℕ → ℕ) (from prev : ℕ) (log : List ℕ) → AreAlike timeline other from (length log)
        → IsPrefixOfRecords ident timeline from prev log → IsPrefixOfRecords ident other from prev log }
{}

/// A walker that has gone through the log along one has gone through it along the other.
pub fn alike_walks()
    ensures { (w : Walker) (timeline other : ℕ → ℕ) (from prev : ℕ) (log : List ℕ) → AreAlike timeline other from (length log)
        → HasWalked w timeline from prev log → HasWalked w other from prev log }
{}
