ghost use Rattle.std.specs.Prelude.{◌≡◌, position};
ghost use Rattle.repl_names.specs.StandbyList.{IsPriority, matches, priority_of};

use crate::list::StandbyList;
use repl_text::Text;

/// The priority of a standby with this name: the place, from 1, of the first entry that matches, and 0 where
/// none does. `*` matches any name, and letters of ASCII match in either case. Takes no memory.
pub fn priority(list: &StandbyList, name: &[u8]) -> u32
    ensures value { result ≡ priority_of list.now.names name.now }
    ensures first { IsPriority list.now.names name.now result }
{
    match first_match(list.names().as_slice(), name) {
        Some(place) => place as u32 + 1,
        None => 0,
    }
}

/// The index of the first entry that matches the name.
fn first_match(entries: &[Text], name: &[u8]) -> Option<usize>
    ensures { result ≡ position (matches name.now) entries.now }
{
    entries.iter().position(|entry| matches(entry, name))
}

/// Whether an entry of a list matches the name.
fn matches(entry: &Text, name: &[u8]) -> bool
    ensures { result ≡ matches name.now entry.now }
{
    let entry = entry.as_slice();
    entry == b"*".as_slice() || entry.eq_ignore_ascii_case(name)
}
