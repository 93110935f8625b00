ghost use Rattle.std.specs.Prelude.{◌≤◌, length, IfErr, OnOk, IsTrue};
ghost use Rattle.repl_text.specs.Language.{StopsAt};
ghost use Rattle.repl_args.specs.Words.{texts};
ghost use Rattle.repl_args.specs.Forms.{tail_maybe, plain_form, plain_tail, are_options_distinct};
ghost use Rattle.repl_args.specs.Lines.{IsTail};
ghost use Rattle.repl_args.specs.Rests.{IsPastName};

use crate::kind::Kind;
use crate::options::read_options;
use crate::table::{Form, Tail};
use crate::words::takes_at;

/// Reads what stands after a command's name. A fault is the place, from 0, at which no words of the form go on.
pub(crate) fn read_past_name<K: Kind, C>(form: &Form<K, C>, words: &[String]) -> Result<(), usize>
    requires { IsTrue (are_options_distinct (plain_tail form.now.tail)) }
    ensures counted { OnOk result (length form.now.arguments.now ≤ length words.now) }
    ensures read { OnOk result (IsPastName K.is (plain_form form.now) (texts words.now)) }
    ensures wrong { IfErr result (λ place. StopsAt (IsPastName K.is (plain_form form.now)) (texts words.now) place) }
{
    for (place, kind) in form.arguments.iter().enumerate() {
        if !takes_at(kind, words, place) {
            return Err(place);
        }
    }
    let count = form.arguments.len();
    match read_tail(&form.tail, &words[count..]) {
        Ok(()) => Ok(()),
        Err(place) => Err(count + place),
    }
}

/// Reads what stands after the arguments. A fault is the place, from 0, at which no tail goes on.
fn read_tail<K: Kind>(tail: &Tail<K>, words: &[String]) -> Result<(), usize>
    requires { IsTrue (are_options_distinct (plain_tail tail.now)) }
    ensures read { OnOk result (IsTail K.is (plain_tail tail.now) (texts words.now)) }
    ensures wrong { IfErr result (λ place. StopsAt (IsTail K.is (plain_tail tail.now)) (texts words.now) place) }
{
    match *tail {
        Tail::Nothing if words.is_empty() => Ok(()),
        Tail::Nothing => Err(0),
        Tail::Maybe(ref kind) => read_maybe(kind, words),
        Tail::Options(options) => read_options(options, words),
    }
}

/// Reads at most one word, of this kind.
fn read_maybe<K: Kind>(kind: &K, words: &[String]) -> Result<(), usize>
    ensures read { OnOk result (IsTail K.is (tail_maybe kind.now) (texts words.now)) }
    ensures wrong { IfErr result (λ place. StopsAt (IsTail K.is (tail_maybe kind.now)) (texts words.now) place) }
{
    if words.is_empty() {
        return Ok(());
    }
    if !takes_at(kind, words, 0) {
        return Err(0);
    }
    if words.len() > 1 {
        return Err(1);
    }
    Ok(())
}
