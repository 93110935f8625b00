ghost use Rattle.std.specs.Prelude.{◌≡◌, ◌<◌, ◌↔◌, [], length, get_or, IsTrue};
ghost use Rattle.repl_args.specs.Words.{texts};

use crate::kind::Kind;

/// The word at the place, from 0, or past the last an empty text.
pub fn word_at(words: &[String], place: usize) -> &str
    ensures { result.now ≡ get_or (texts words.now) place [] }
{
    match words.get(place) {
        Some(word) => word.as_str(),
        None => "",
    }
}

/// Whether this word stands at the place.
pub(crate) fn stands_at(words: &[String], place: usize, name: &str) -> bool
    ensures { IsTrue result ↔ ((place < length words.now) × (get_or (texts words.now) place [] ≡ name.now)) }
{
    match words.get(place) {
        Some(word) => word.as_str() == name,
        None => false,
    }
}

/// Whether a word of this kind stands at the place.
pub(crate) fn takes_at<K: Kind>(kind: &K, words: &[String], place: usize) -> bool
    ensures { IsTrue result ↔ ((place < length words.now) × K.is kind.now (get_or (texts words.now) place [])) }
{
    match words.get(place) {
        Some(word) => kind.takes(word.as_str()),
        None => false,
    }
}
