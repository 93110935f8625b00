//! Blanks, words and lines of a text. No byte is copied.
ghost use Rattle.std.specs.Prelude.{◌≡◌, ◌≢◌, ◌-◌, ◌≤◌, ◌⊎◌, [], ◌∷◌, ◌++◌, length, take, drop, All};
ghost use Rattle.std.specs.List.{prefix_len, suffix_len, position_or_len};
ghost use Rattle.repl_lsn.specs.Line.{is_blank};

/// Whether the byte is a space or a tab.
pub(crate) fn is_blank(byte: u8) -> bool
    ensures { result ≡ is_blank byte }
{
    byte == b' ' || byte == b'\t'
}

/// What is after the blanks with which the bytes begin.
pub(crate) fn after_blanks(bytes: &[u8]) -> &[u8]
    ensures { result.now ≡ drop (prefix_len is_blank bytes.now) bytes.now }
{
    &bytes[leading_blanks(bytes)..]
}

/// What is before the blanks with which the bytes end.
pub(crate) fn before_blanks(bytes: &[u8]) -> &[u8]
    ensures { result.now ≡ take (length bytes.now - suffix_len is_blank bytes.now) bytes.now }
{
    &bytes[..bytes.len() - trailing_blanks(bytes)]
}

/// The bytes before the first blank, and the rest.
pub(crate) fn split_word(bytes: &[u8]) -> (&[u8], &[u8])
    ensures word { result.0.now ≡ take (position_or_len is_blank bytes.now) bytes.now }
    ensures rest { result.1.now ≡ drop (position_or_len is_blank bytes.now) bytes.now }
{
    bytes.split_at(word_size(bytes))
}

/// How many blanks the bytes begin with.
fn leading_blanks(bytes: &[u8]) -> usize
    ensures within { result ≤ length bytes.now }
    ensures count { result ≡ prefix_len is_blank bytes.now }
{
    bytes.iter().take_while(|c| is_blank(**c)).count()
}

/// How many blanks the bytes end with.
fn trailing_blanks(bytes: &[u8]) -> usize
    ensures within { result ≤ length bytes.now }
    ensures count { result ≡ suffix_len is_blank bytes.now }
{
    bytes.iter().rev().take_while(|c| is_blank(**c)).count()
}

/// How many bytes stand before the first blank.
fn word_size(bytes: &[u8]) -> usize
    ensures within { result ≤ length bytes.now }
    ensures count { result ≡ position_or_len is_blank bytes.now }
{
    bytes.iter().take_while(|c| !is_blank(**c)).count()
}

/// The bytes before the first line feed, and those after it: none of either where there is no more.
pub(crate) fn split_line(text: &[u8]) -> (&[u8], &[u8])
    ensures single { All (λ c. c ≢ 10) result.0.now }
    ensures parts { (text.now ≡ result.0.now ++ 10 ∷ result.1.now) ⊎ ((text.now ≡ result.0.now) × (result.1.now ≡ [])) }
{
    match text.iter().position(|c| *c == b'\n') {
        Some(size) => (&text[..size], &text[size + 1..]),
        None => (text, &[]),
    }
}
