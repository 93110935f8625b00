//! The lists of synchronous standbys that histories put in force: as texts for `parse_names`, and as the plain machine
//! knows them.
use repl_names::{Method, NamesFault, StandbyList, parse_names};
use std::alloc::Global;

/// A list whose names are single letters, or `*` for any name. The list without names has the number 0.
#[derive(Clone, Copy)]
pub struct PlainList {
    pub method: Method,
    pub number: usize,
    pub names: &'static [u8],
}

/// The list at this place of the table; beyond the table the one without names.
pub fn plain_list(place: usize) -> PlainList {
    match place {
        1 => plain(Method::First, 1, b"a".as_slice()),
        2 => plain(Method::First, 2, b"ab".as_slice()),
        3 => plain(Method::First, 1, b"b*".as_slice()),
        4 => plain(Method::First, 2, b"*".as_slice()),
        5 => plain(Method::First, 2, b"ca*".as_slice()),
        6 => plain(Method::Any, 1, b"ab".as_slice()),
        7 => plain(Method::Any, 2, b"abc".as_slice()),
        8 => plain(Method::Any, 2, b"*".as_slice()),
        9 => plain(Method::Any, 1, b"c*".as_slice()),
        _ => plain(Method::First, 0, b"".as_slice()),
    }
}

fn plain(method: Method, number: usize, names: &'static [u8]) -> PlainList {
    PlainList {
        method,
        number,
        names,
    }
}

/// The same lists in the same order, as `repl_names` reads them.
pub fn standby_lists(alloc: Global) -> Result<Vec<StandbyList>, NamesFault> {
    let mut lists = Vec::new(alloc);
    lists.push(StandbyList::none(alloc))?;
    lists.push(parse_names(alloc, b"FIRST 1 (a)")?)?;
    lists.push(parse_names(alloc, b"FIRST 2 (a, b)")?)?;
    lists.push(parse_names(alloc, b"FIRST 1 (b, *)")?)?;
    lists.push(parse_names(alloc, b"FIRST 2 (*)")?)?;
    lists.push(parse_names(alloc, b"FIRST 2 (c, a, *)")?)?;
    lists.push(parse_names(alloc, b"ANY 1 (a, b)")?)?;
    lists.push(parse_names(alloc, b"ANY 2 (a, b, c)")?)?;
    lists.push(parse_names(alloc, b"ANY 2 (*)")?)?;
    lists.push(parse_names(alloc, b"ANY 1 (c, *)")?)?;
    Ok(lists)
}

/// The place of this list in the table, or 10 where it is none of them. No two lists of the table are alike.
pub fn place_of(list: &StandbyList) -> usize {
    for place in 0..10 {
        if is_alike(list, plain_list(place)) {
            return place;
        }
    }
    10
}

fn is_alike(list: &StandbyList, plain: PlainList) -> bool {
    list.method() == plain.method
        && list.number() as usize == plain.number
        && has_names(list, plain.names)
}

/// Whether the list has these letters as its names.
fn has_names(list: &StandbyList, names: &[u8]) -> bool {
    let texts = list.names().as_slice();
    if texts.len() != names.len() {
        return false;
    }
    for (text, name) in texts.iter().zip(names) {
        if letter(text.as_slice()) != *name {
            return false;
        }
    }
    true
}

/// The letter that is the whole name, or 0 where it is not one letter.
pub fn letter(name: &[u8]) -> u8 {
    match name {
        [letter] => *letter,
        _ => 0,
    }
}
