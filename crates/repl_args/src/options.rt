ghost use Rattle.std.specs.Prelude.{◌≡◌, ◌≢◌, ◌↔◌, ℕ, List, [], drop, Contains, All, IfSome, IfNone, IfOk, IfErr, OnOk, IsTrue, map};
ghost use Rattle.repl_text.specs.Language.{StopsAt};
ghost use Rattle.repl_args.specs.Words.{texts};
ghost use Rattle.repl_args.specs.Options.{HasValue, HasName, AreOptions};
ghost use Rattle.repl_args.specs.Forms.{are_distinct, option_name, plain_option};

use crate::kind::Kind;
use crate::table::OptionForm;
use crate::words::takes_at;

/// The value after this name, where from the place on the words are names and values of options in turn.
pub fn option_value<'w>(words: &'w [String], from: usize, name: &str) -> Option<&'w str>
    ensures some { IfSome result (λ value. HasValue (drop from (texts words.now)) name.now value.now) }
    ensures none { IfNone result (¬ HasName (drop from (texts words.now)) name.now) }
{
    let mut place = from;
    while place < words.len() && words.len() - place > 1 {
        if words[place].as_str() == name {
            return Some(words[place + 1].as_str());
        }
        place += 2;
    }
    None
}

/// Whether a value stands after this name.
fn has_name(words: &[String], name: &str) -> bool
    ensures { IsTrue result ↔ HasName (texts words.now) name.now }
{
    option_value(words, 0, name).is_some()
}

/// The option of this name.
fn find_option<'o, 'a, K>(
    options: &'o [OptionForm<'a, K>],
    name: &str,
) -> Option<&'o OptionForm<'a, K>>
    ensures one { IfSome result (λ option. Contains (map plain_option options.now) (plain_option option.now)) }
    ensures named { IfSome result (λ option. option.now.name.now ≡ name.now) }
    ensures none { IfNone result (All (λ option. option_name option ≢ name.now) (map plain_option options.now)) }
{
    for option in options {
        if option.name == name {
            return Some(option);
        }
    }
    None
}

/// Reads names and values of these options, each at most once. A fault is the place, from 0, at which no options go on.
pub(crate) fn read_options<K: Kind>(
    options: &[OptionForm<K>],
    words: &[String],
) -> Result<(), usize>
    requires { IsTrue (are_distinct (map option_name (map plain_option options.now))) }
    ensures read { OnOk result (AreOptions K.is (map plain_option options.now) (texts words.now)) }
    ensures wrong { IfErr result (λ place. StopsAt (AreOptions K.is (map plain_option options.now)) (texts words.now) place) }
{
    let mut place = 0;
    while place < words.len() {
        let name = words[place].as_str();
        if has_name(&words[..place], name) {
            return Err(place);
        }
        let Some(option) = find_option(options, name) else {
            return Err(place);
        };
        if !takes_at(&option.kind, words, place + 1) {
            return Err(place + 1);
        }
        place += 2;
    }
    Ok(())
}
