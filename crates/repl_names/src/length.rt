//! How long the spelling of a list is.
ghost use Rattle.std.specs.Prelude.{◌≡◌, ◌+◌, ◌-◌, ◌^◌, ◌<◌, ◌≤◌, length, min, decimal, sum_by, count_by, ◌==◌, All};
ghost use Rattle.repl_text.specs.Text.{IsText};
ghost use Rattle.repl_names.specs.StandbyList.{list_spelling, method_spelling, name_spelling, Demands};

use crate::list::Method;
use repl_text::Text;

/// How many bytes the spelling of this list has, or 2^64 - 1 where there are more.
pub(crate) fn spelling_length(method: Method, number: u32, names: &[Text]) -> u64
    requires { Demands names.now method number }
    ensures exact { result ≡ min (length (list_spelling (record { method = method; number = number; names = names.now }))) (2 ^ 64 - 1) }
    ensures texts { All IsText names.now }
{
    if names.is_empty() {
        return 0;
    }
    // Besides the keyword, the digits and the names there are four bytes: a space, ` (` and `)`. Two of them
    // are counted with the last name, which no comma follows.
    names_length(names).saturating_add(keyword_length(method) + digit_count(number) + 2)
}

/// How many bytes the spellings of the names have, each with a comma and a space, or 2^64 - 1 where there are
/// more.
fn names_length(names: &[Text]) -> u64
    ensures exact { result ≡ min (sum_by (λ name. length (name_spelling name) + 2) names.now) (2 ^ 64 - 1) }
    ensures texts { All IsText names.now }
{
    let mut total: u64 = 0;
    for name in names {
        total = total
            .saturating_add(name_length(name.as_slice()))
            .saturating_add(2);
    }
    total
}

/// How many bytes the spelling of the name has, or 2^64 - 1 where there are more.
fn name_length(name: &[u8]) -> u64
    ensures { result ≡ min (length (name_spelling name.now)) (2 ^ 64 - 1) }
{
    if name == b"*".as_slice() {
        return 1;
    }
    let quotes = quote_count(name);
    (name.len() as u64)
        .saturating_add(quotes as u64)
        .saturating_add(2)
}

/// How many quotes there are among the bytes.
fn quote_count(bytes: &[u8]) -> usize
    ensures { result ≡ count_by (λ b. b == 34) bytes.now }
{
    bytes.iter().filter(|b| **b == b'"').count()
}

/// How many bytes the keyword of the method has.
fn keyword_length(method: Method) -> u64
    ensures exact { result ≡ length (method_spelling method) }
    ensures few { result ≤ 5 }
{
    match method {
        Method::First => 5,
        Method::Any => 3,
    }
}

/// How many decimal digits the number has.
fn digit_count(number: u32) -> u64
    requires { 0 < number }
    ensures exact { result ≡ length (decimal number) }
    ensures few { result ≤ 10 }
{
    u64::from(number.ilog10()) + 1
}
