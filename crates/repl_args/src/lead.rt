ghost use Rattle.std.specs.Prelude.{◌≤◌, length, take, IfOk, IfErr, IsTrue};
ghost use Rattle.repl_text.specs.Language.{StopsAt};
ghost use Rattle.repl_args.specs.Words.{texts};
ghost use Rattle.repl_args.specs.Forms.{plain, is_table};
ghost use Rattle.repl_args.specs.Lines.{IsLead, IsLine};
ghost use Rattle.repl_args.specs.Rests.{GoesOn, IsCommand};

use crate::kind::Kind;
use crate::table::Table;
use crate::words::{stands_at, takes_at};

/// Reads what stands before the command, and answers the place of the command's name. A fault is the place, from 0, at
/// which no line goes on.
pub(crate) fn read_lead<K: Kind, C>(table: &Table<K, C>, words: &[String]) -> Result<usize, usize>
    requires { IsTrue (is_table (plain table.now)) }
    ensures within { IfOk result (λ first. first ≤ length words.now) }
    ensures read { IfOk result (λ first. IsLead K.is (plain table.now).lead (take first (texts words.now))) }
    ensures goes_on { IfOk result (λ first. GoesOn (IsLine K.is (plain table.now)) (texts words.now) (IsCommand K.is (plain table.now).forms) first) }
    ensures wrong { IfErr result (λ place. StopsAt (IsLine K.is (plain table.now)) (texts words.now) place) }
{
    let Some(lead) = &table.lead else {
        return Ok(0);
    };
    if !stands_at(words, 0, lead.name) {
        return Ok(0);
    }
    if !takes_at(&lead.kind, words, 1) {
        return Err(1);
    }
    Ok(2)
}
