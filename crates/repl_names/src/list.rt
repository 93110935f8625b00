ghost use Rattle.std.specs.Prelude.{◌≡◌, [], IfOk};
ghost use Rattle.repl_names.specs.StandbyList.{Listing, IsListing};

use repl_text::Text;
use std::alloc::{AllocError, Global};
use std::marker::Model;

/// The greatest number of standbys that a list may demand.
pub const NUMBER_LIMIT: u32 = 2_147_483_647;

/// The most bytes of a list's spelling.
pub const SPELLING_LIMIT: u64 = 65_536;

// What a list is depends on these numbers.
const _: () = prove!(NUMBER_LIMIT == 2_147_483_647);

const _: () = prove!(SPELLING_LIMIT == 65_536);

/// Which of the standbys on a list confirm a commit.
#[derive(Clone, Copy, Debug, PartialEq, Eq)]
pub enum Method {
    /// Those of best priority.
    First,
    /// Any of them.
    Any,
}

/// The names of a standby list, in order. `*` stands for any name.
#[derive(Debug, Drop)]
pub struct NameList {
    names: Vec<Text>,
}

impl Model for NameList {
    ghost use Rattle.std.specs.Prelude.{ℕ, List};
    ghost use Rattle.std.specs.List.{All};
    ghost use Rattle.repl_text.specs.Text.{IsText};

    ghost Value = { List (List ℕ) };

    ghost view = { λ n. n.names.items };

    ghost invariant = { λ n. All IsText n.names.items };
}

impl NameList {
    /// The names.
    pub fn as_slice(&self) -> &[Text]
        ensures { result.now ≡ self.now }
    {
        &self.names
    }
}

/// A list of synchronous standbys (manual, `synchronous_standby_names`): each is one that some text spells.
#[derive(Debug, Drop)]
pub struct StandbyList {
    method: Method,
    number: u32,
    names: NameList,
}

impl Model for StandbyList {
    ghost use Rattle.repl_names.specs.StandbyList.{Listing, IsListing};

    ghost Value = { Listing };

    ghost view = { λ l. record { method = l.method; number = l.number; names = l.names } };

    ghost invariant = { λ l. IsListing (record { method = l.method; number = l.number; names = l.names }) };
}

impl StandbyList {
    /// The list without names, which demands nothing.
    pub fn none(alloc: Global) -> StandbyList
        ensures { result ≡ record { method = Method.First; number = 0; names = [] } }
    {
        StandbyList {
            method: Method::First,
            number: 0,
            names: NameList {
                names: Vec::new(alloc),
            },
        }
    }

    /// The list of these parts, if they are those of one.
    pub(crate) fn of(method: Method, number: u32, names: Vec<Text>) -> StandbyList
        requires { IsListing (record { method = method; number = number; names = names.items }) }
        ensures { result ≡ record { method = method; number = number; names = names.items } }
    {
        StandbyList {
            method,
            number,
            names: NameList { names },
        }
    }

    /// A copy of the list. Takes memory for its names.
    pub fn copy(&self, alloc: Global) -> Result<StandbyList, AllocError>
        ensures { IfOk result (λ list. list ≡ self.now) }
    {
        let mut names = Vec::new(alloc);
        for name in self.names().as_slice() {
            names.push(Text::copied(alloc, name.as_slice())?)?;
        }
        Ok(StandbyList::of(self.method, self.number, names))
    }

    /// Which of the standbys confirm a commit.
    pub fn method(&self) -> Method
        ensures { result ≡ self.now.method }
    {
        self.method
    }

    /// How many of them confirm it: 0 of the list without names, and 1 to 2,147,483,647 of any other.
    pub fn number(&self) -> u32
        ensures value { result ≡ self.now.number }
        ensures listing { IsListing self.now }
    {
        self.number
    }

    /// The names, in order.
    pub fn names(&self) -> &NameList
        ensures value { result.now ≡ self.now.names }
        ensures listing { IsListing self.now }
    {
        &self.names
    }
}
