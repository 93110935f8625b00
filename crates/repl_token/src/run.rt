//! How many bytes a text begins with that go on alike.
ghost use Rattle.std.specs.Prelude.{◌≡◌, ◌≤◌, length};
ghost use Rattle.std.specs.List.{prefix_len};
ghost use Rattle.repl_token.specs.Class.{is_blank, is_digit, is_inside};

use crate::lexicon::Lexicon;

/// How many blanks a text begins with.
pub(crate) fn blanks<L: Lexicon>(text: &[u8]) -> usize
    ensures within { result ≤ length text.now }
    ensures count { result ≡ prefix_len (λ c. is_blank (L.class_of c)) text.now }
{
    text.iter().take_while(|c| L::class(**c).is_blank()).count()
}

/// How many digits a text begins with.
pub(crate) fn digits<L: Lexicon>(text: &[u8]) -> usize
    ensures within { result ≤ length text.now }
    ensures count { result ≡ prefix_len (λ c. is_digit (L.class_of c)) text.now }
{
    text.iter().take_while(|c| L::class(**c).is_digit()).count()
}

/// How many bytes a text begins with that go on with a word.
pub(crate) fn word_bytes<L: Lexicon>(text: &[u8]) -> usize
    ensures within { result ≤ length text.now }
    ensures count { result ≡ prefix_len (λ c. is_inside (L.class_of c)) text.now }
{
    text.iter()
        .take_while(|c| L::class(**c).is_inside())
        .count()
}
