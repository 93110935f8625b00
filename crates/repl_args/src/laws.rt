ghost use Rattle.std.specs.Prelude.{◌≡◌, ◌+◌, ◌<◌, ℕ, List, [], length, map, drop, get_or, slice_get, Some, All, Contains, IsTrue};
ghost use Rattle.repl_args.specs.declared.line.Line.{Line};
ghost use Rattle.repl_args.specs.Forms.{PlainOption, PlainForm, PlainTable, is_table, are_distinct, option_name};
ghost use Rattle.repl_args.specs.Options.{AreOptions, HasValue};
ghost use Rattle.repl_args.specs.Lines.{IsLine, IsLineOf, IsReadOf, IsRead, IsUsage};

use crate::kind::Kind;

/// Words are a line of one form at most.
pub fn one_form<K: Kind, C>()
    ensures { (table : PlainTable K C) (words : List (List ℕ)) (form other : PlainForm K C) → IsTrue (is_table table)
        → Contains table.forms form → Contains table.forms other → IsLineOf K.is table form words → IsLineOf K.is table other words
        → form ≡ other }
{}

/// Words are refused at one word at most, and at none where they are a line.
pub fn one_usage<K: Kind, C>()
    ensures one { (table : PlainTable K C) (words : List (List ℕ)) (word other : ℕ) → IsUsage K.is table words word
        → IsUsage K.is table words other → word ≡ other }
    ensures none { (table : PlainTable K C) (words : List (List ℕ)) (word : ℕ) → IsLine K.is table words → ¬ IsUsage K.is table words word }
{}

/// Each argument of a line that was read stands after the command's name, in order, and is of its kind.
pub fn arguments_are_of_their_kinds<K: Kind, C>()
    ensures place { (table : PlainTable K C) (form : PlainForm K C) (words : List (List ℕ)) (line : Line C)
        (read : IsReadOf K.is table form words line) (i place : ℕ) → place ≡ line.first + 1 + i → i < length form.arguments
        → get_or words place [] ≡ get_or read.is_line.arguments i [] }
    ensures kind { (table : PlainTable K C) (form : PlainForm K C) (words : List (List ℕ)) (line : Line C)
        (read : IsReadOf K.is table form words line) (i place : ℕ) (kind : K) → place ≡ line.first + 1 + i
        → slice_get form.arguments i ≡ Some kind → K.is kind (get_or words place []) }
{}

/// After its arguments stands its tail.
pub fn tail_is_past<K: Kind, C>()
    ensures { (table : PlainTable K C) (form : PlainForm K C) (words : List (List ℕ)) (line : Line C)
        (read : IsReadOf K.is table form words line) → drop line.past words ≡ read.is_line.rest }
{}

/// A name among options has one value at most, and the value after an option's name is of its kind.
pub fn options_have_one_value<K: Kind>()
    ensures one { (options : List (PlainOption K)) (words : List (List ℕ)) (name value other : List ℕ) → AreOptions K.is options words
        → HasValue words name value → HasValue words name other → value ≡ other }
    ensures kind { (options : List (PlainOption K)) (words : List (List ℕ)) (i : ℕ) (option : PlainOption K) (value : List ℕ)
        → IsTrue (are_distinct (map option_name options)) → AreOptions K.is options words → slice_get options i ≡ Some option
        → HasValue words option.name value → K.is option.kind value }
{}

/// Where a function tells each form of a table by its command, it tells the form of a line that was read.
pub fn commands_tell_forms<K: Kind, C>()
    ensures { (table : PlainTable K C) (form_of : C → PlainForm K C) (words : List (List ℕ)) (line : Line C)
        → All (λ form. form ≡ form_of form.command) table.forms → IsRead K.is table words line
        → IsReadOf K.is table (form_of line.command) words line }
{}
