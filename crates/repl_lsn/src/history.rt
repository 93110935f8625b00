ghost use Rattle.std.specs.Prelude.{◌≡◌, ◌≢◌, ◌↔◌, [], IsTrue, IfSome, IsSome, IfOk, All};
ghost use Rattle.repl_lsn.specs.Line.{IsLine, BeginsInk, EndsInk};
ghost use Rattle.repl_lsn.specs.History.{IsPath, InOrder};

use crate::position::Lsn;
use crate::timeline::Tli;
use crate::words::is_blank;
use std::alloc::{AllocError, Global};
use std::fmt;
use std::marker::Model;

/// The most bytes of a history's text.
pub const HISTORY_LIMIT: u64 = 65_536;

const _: () = prove!(HISTORY_LIMIT == 65_536);

/// Why a timeline was left: bytes without a line feed, and without spaces and tabs at their ends.
#[derive(Debug, Drop)]
pub struct Line {
    bytes: Vec<u8>,
}

impl Model for Line {
    ghost use Rattle.std.specs.Prelude.{ℕ, List};
    ghost use Rattle.repl_lsn.specs.Line.{IsLine};

    ghost Value = { List ℕ };

    ghost view = { λ l. l.bytes.items };

    ghost invariant = { λ l. IsLine l.bytes.items };
}

impl Line {
    /// The line of these bytes, which are not copied, if they are one.
    pub fn new(bytes: Vec<u8>) -> Option<Line>
        ensures made { IfSome result (λ line. line ≡ bytes.items) }
        ensures taken { IsSome result ↔ IsLine bytes.items }
    {
        if is_line(&bytes) {
            Some(Line { bytes })
        } else {
            None
        }
    }

    /// A copy of these bytes as a line. Takes memory for them.
    pub(crate) fn copied(alloc: Global, bytes: &[u8]) -> Result<Line, AllocError>
        requires { IsLine bytes.now }
        ensures { IfOk result (λ line. line ≡ bytes.now) }
    {
        Ok(Line {
            bytes: Vec::from_slice(alloc, bytes)?,
        })
    }

    /// A copy of the line. Takes memory for it.
    pub fn copy(&self, alloc: Global) -> Result<Line, AllocError>
        ensures { IfOk result (λ line. line ≡ self.now) }
    {
        Line::copied(alloc, self.as_slice())
    }

    /// The bytes.
    pub fn as_slice(&self) -> &[u8]
        ensures value { result.now ≡ self.now }
        ensures line { IsLine self.now }
    {
        &self.bytes
    }
}

/// Whether the bytes are a line.
fn is_line(bytes: &[u8]) -> bool
    ensures { IsTrue result ↔ IsLine bytes.now }
{
    !bytes.contains(&b'\n') && begins_ink(bytes) && ends_ink(bytes)
}

/// Whether no blank stands first.
fn begins_ink(bytes: &[u8]) -> bool
    ensures { IsTrue result ↔ BeginsInk bytes.now }
{
    match bytes.first() {
        None => true,
        Some(first) => !is_blank(*first),
    }
}

/// Whether no blank stands last.
fn ends_ink(bytes: &[u8]) -> bool
    ensures { IsTrue result ↔ EndsInk bytes.now }
{
    match bytes.last() {
        None => true,
        Some(last) => !is_blank(*last),
    }
}

/// A timeline that was left (PostgreSQL 17 manual, section "Timelines").
#[derive(Debug, Drop)]
pub struct Part {
    pub tli: Tli,
    /// The first position that is not on it.
    pub switch: Lsn,
    pub reason: Line,
}

/// The timeline's number and its switch point: `1 0/1000048`.
impl fmt::Display for Part {
    ghost use Rattle.std.specs.Prelude.{Some, decimal, ◌++◌, ◌∷◌};
    ghost use Rattle.repl_lsn.specs.Position.{position_text};

    ghost output = { λ part. Some (decimal part.tli ++ 32 ∷ position_text part.switch) };

    fn fmt<W: fmt::Write>(&self, f: &mut fmt::Formatter<W>) -> fmt::Result {
        let tli = self.tli;
        let switch = self.switch;
        write!(f, "{tli} {switch}")
    }
}

/// Timelines that were left, in order.
#[derive(Debug, Drop)]
pub struct Parts {
    parts: Vec<Part>,
}

impl Model for Parts {
    ghost use Rattle.std.specs.Prelude.{List};
    ghost use Rattle.repl_lsn.specs.declared.history.Part.{Part};

    ghost Value = { List Part };

    ghost view = { λ p. p.parts.items };
}

impl Parts {
    /// The parts of this list, which is not copied.
    pub fn new(parts: Vec<Part>) -> Parts
        ensures { result ≡ parts.items }
    {
        Parts { parts }
    }

    /// The timelines.
    pub fn as_slice(&self) -> &[Part]
        ensures { result.now ≡ self.now }
    {
        &self.parts
    }
}

/// A timeline and those before it: a path through the log. The numbers rise up to the timeline's own, and no switch
/// point is before the one above it.
#[derive(Debug, Drop)]
pub struct History {
    own: Tli,
    parents: Parts,
}

impl Model for History {
    ghost use Rattle.repl_lsn.specs.History.{Path, IsPath};

    ghost Value = { Path };

    ghost view = { λ h. record { own = h.own; parents = h.parents } };

    ghost invariant = { λ h. IsPath (record { own = h.own; parents = h.parents }) };
}

impl History {
    /// The history of these timelines, if they are one.
    pub fn new(own: Tli, parents: Parts) -> Option<History>
        ensures made { IfSome result (λ history. history ≡ record { own = own; parents = parents }) }
        ensures taken { IsSome result ↔ IsPath (record { own = own; parents = parents }) }
    {
        if in_order(own, parents.as_slice()) {
            Some(History { own, parents })
        } else {
            None
        }
    }

    /// The history of these timelines, which are one.
    pub(crate) fn of(own: Tli, parents: Parts) -> History
        requires { IsPath (record { own = own; parents = parents }) }
        ensures { result ≡ record { own = own; parents = parents } }
    {
        History { own, parents }
    }

    /// The history of a timeline without parents: of the first one. Takes no memory.
    pub fn first(alloc: Global, own: Tli) -> History
        ensures { result ≡ record { own = own; parents = [] } }
    {
        History {
            own,
            parents: Parts {
                parts: Vec::new(alloc),
            },
        }
    }

    /// The timeline's own number.
    pub fn own(&self) -> Tli
        ensures { result ≡ self.now.own }
    {
        self.own
    }

    /// The timelines before it, in order.
    pub fn parents(&self) -> &Parts
        ensures value { result.now ≡ self.now.parents }
        ensures path { IsPath self.now }
    {
        &self.parents
    }
}

/// Whether the timelines' numbers rise and stay below the own one, and no switch point falls.
fn in_order(own: Tli, parts: &[Part]) -> bool
    ensures { IsTrue result ↔ InOrder own parts.now }
{
    let mut number = 0;
    let mut switch = Lsn(0);
    for part in parts {
        let tli = part.tli;
        if tli.0 <= number || own <= tli || part.switch < switch {
            return false;
        }
        number = tli.0;
        switch = part.switch;
    }
    true
}
