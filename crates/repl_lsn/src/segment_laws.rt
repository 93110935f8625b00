ghost use Rattle.std.specs.Prelude.{◌≡◌, ◌≢◌, ℕ, List, ◌++◌, codes, get_or};
ghost use Rattle.repl_lsn.specs.Segment.{IsSegSize, Names, LogFile, IsLogFile, IsDigit, file_name};
ghost use Rattle.repl_lsn.specs.FileName.{HasForm, NamesPartial};

/// A segment has one name, and a name is that of one segment of one timeline.
pub fn one_segment()
    ensures { (size tli seg other number : ℕ) (text : List ℕ) → IsSegSize size → Names size text tli seg → Names size text other number → (tli ≡ other) × (seg ≡ number) }
{}

/// A segment that is not whole has one name, and a name is that of one such segment of one timeline.
pub fn one_partial()
    ensures { (size tli seg other number : ℕ) (text : List ℕ) → IsSegSize size → NamesPartial size text tli seg → NamesPartial size text other number → (tli ≡ other) × (seg ≡ number) }
{}

/// Two files of the log never have one name, whole segments, segments that are not whole and histories.
pub fn one_file()
    ensures { (size : ℕ) (a b : LogFile) → IsSegSize size → IsLogFile size a → IsLogFile size b → file_name size a ≡ file_name size b → a ≡ b }
{}

/// A name is that of a file of the log only in one of three forms: it begins with a digit, and `.tmp` does not end it. So
/// the files that a store keeps beside the log's, and the names under which it writes a file before it renames it, are none
/// of the log's.
pub fn no_other_file()
    ensures form { (size : ℕ) (file : LogFile) → IsSegSize size → IsLogFile size file → HasForm (file_name size file) }
    ensures digit { (size : ℕ) (file : LogFile) → IsSegSize size → IsLogFile size file → IsDigit (get_or (file_name size file) 0 0) }
    ensures temporary { (size : ℕ) (file : LogFile) (name : List ℕ) → IsSegSize size → IsLogFile size file → file_name size file ≢ name ++ codes ".tmp" }
    ensures control { (size : ℕ) (file : LogFile) → IsSegSize size → IsLogFile size file → file_name size file ≢ codes "control" }
    ensures slots { (size : ℕ) (file : LogFile) → IsSegSize size → IsLogFile size file → file_name size file ≢ codes "slots" }
{}
