ghost use Rattle.std.specs.Prelude.{◌≡◌, ◌≢◌, map, All, Contains, IfSome, IfNone, IfOk, IfErr, IsTrue};
ghost use Rattle.repl_args.specs.Words.{texts};
ghost use Rattle.repl_args.specs.Forms.{plain, plain_form, is_table, form_name};
ghost use Rattle.repl_args.specs.Lines.{IsRead, IsUsage};

use crate::form::read_past_name;
use crate::kind::Kind;
use crate::lead::read_lead;
use crate::table::{Form, Table};

/// Whose line the words are.
#[derive(Clone, Copy, Debug, PartialEq, Eq)]
pub struct Line<C> {
    /// The command of the form.
    pub command: C,
    /// The place of the command's name: 0, or 2 after a lead.
    pub first: usize,
    /// The place after the arguments, at which the tail begins.
    pub past: usize,
}

/// Reads the words of a command line, without the program's name, by the table.
///
/// A fault is the number, counted from 1, of the first word with which no line of the table goes on, or of the word that
/// is missing after the last.
pub fn read_line<K: Kind, C: Copy>(table: &Table<K, C>, words: &[String]) -> Result<Line<C>, usize>
    requires { IsTrue (is_table (plain table.now)) }
    ensures read { IfOk result (λ line. IsRead K.is (plain table.now) (texts words.now) line) }
    ensures wrong { IfErr result (λ word. IsUsage K.is (plain table.now) (texts words.now) word) }
{
    let first = match read_lead(table, words) {
        Ok(first) => first,
        Err(place) => return Err(place + 1),
    };
    if first >= words.len() {
        return Err(first + 1);
    }
    let Some(form) = find_form(table.forms, words[first].as_str()) else {
        return Err(first + 1);
    };
    match read_past_name(form, &words[first + 1..]) {
        Ok(()) => Ok(Line {
            command: form.command,
            first,
            past: first + 1 + form.arguments.len(),
        }),
        Err(place) => Err(first + place + 2),
    }
}

/// The form of this name.
fn find_form<'f, 'a, K, C>(forms: &'f [Form<'a, K, C>], name: &str) -> Option<&'f Form<'a, K, C>>
    ensures one { IfSome result (λ form. Contains (map plain_form forms.now) (plain_form form.now)) }
    ensures named { IfSome result (λ form. form.now.name.now ≡ name.now) }
    ensures none { IfNone result (All (λ form. form_name form ≢ name.now) (map plain_form forms.now)) }
{
    for form in forms {
        if form.name == name {
            return Some(form);
        }
    }
    None
}
