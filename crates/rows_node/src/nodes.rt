//! Three nodes, and which of them a row concerns.
use crate::calls::{self, timeline};
use crate::pairs::{self, With};
use crate::place::Place;
use crate::{making, stops};
use rows_table::{Answer, Call, Miss, number, said, text};
use std::alloc::Global;

/// Nodes by number, and the number of the one that rows speak of.
#[derive(Drop)]
pub struct Nodes {
    one: Place,
    two: Place,
    three: Place,
    now: u64,
}

impl Nodes {
    /// Disks without files.
    pub fn new(alloc: Global) -> Nodes {
        Nodes {
            one: Place::fresh(alloc),
            two: Place::fresh(alloc),
            three: Place::fresh(alloc),
            now: 1,
        }
    }

    fn at(&mut self, number: u64) -> &mut Place {
        match number {
            1 => &mut self.one,
            2 => &mut self.two,
            _ => &mut self.three,
        }
    }

    /// The one that rows speak of.
    pub fn here(&mut self) -> &mut Place {
        let now = self.now;
        self.at(now)
    }
}

/// Makes the call of a row.
pub fn answer(alloc: Global, nodes: &mut Nodes, call: &Call) -> Answer {
    if let Some([passing, name, words @ ..]) = call.words("stop") {
        let call = Call::new(text(name)?, words);
        return stops::stop(alloc, nodes, number(passing)?, &call);
    }
    if let Some([way, words @ ..]) = call.words("stops") {
        return stops::answer(alloc, making::is_kept(way)?, words);
    }
    make(alloc, nodes, call)
}

/// Makes a call on the node that rows speak of.
pub fn make(alloc: Global, nodes: &mut Nodes, call: &Call) -> Answer {
    if let Some([other]) = call.words("node") {
        nodes.now = number(other)?;
        return said(alloc, "done");
    }
    if let Some([passing]) = call.words("fuse") {
        nodes.here().fuse(number(passing)?);
        return said(alloc, "done");
    }
    match with_of(call)? {
        Some((other, with)) => with_other(alloc, nodes, other, with),
        None => alone(alloc, nodes.here(), call),
    }
}

/// Makes a call that concerns no other node.
fn alone(alloc: Global, place: &mut Place, call: &Call) -> Answer {
    match making::answer(alloc, place, call) {
        Err(Miss::Call) => calls::answer(alloc, place.node()?, call),
        answer => answer,
    }
}

/// The number of the other node with which a call is made, and what is done with it.
fn with_of(call: &Call) -> Result<Option<(u64, With)>, Miss> {
    if let Some([other]) = call.words("clone") {
        return Ok(Some((number(other)?, With::Clone)));
    }
    if let Some([other]) = call.words("clone_here") {
        return Ok(Some((number(other)?, With::CloneHere)));
    }
    if let Some([other]) = call.words("follow_of") {
        return Ok(Some((number(other)?, With::Follow)));
    }
    match call.words("pull") {
        None => Ok(None),
        Some(words) => pull_of(words),
    }
}

fn pull_of(words: &[Vec<u8>]) -> Result<Option<(u64, With)>, Miss> {
    let (other, count, tli) = match words {
        [other, count] => (other, count, None),
        [other, count, tli] => (other, count, Some(timeline(tli)?)),
        _ => return Err(Miss::Words),
    };
    let count = number(count)?;
    Ok(Some((number(other)?, With::Pull { count, tli })))
}

/// Makes a call with the node of another number, which is taken out while it is made.
fn with_other(alloc: Global, nodes: &mut Nodes, number: u64, with: With) -> Answer {
    let mut other = nodes.at(number).take(alloc);
    let answer = match other.node() {
        Ok(node) => pairs::answer(alloc, nodes.here(), node, with),
        Err(miss) => Err(miss),
    };
    *nodes.at(number) = other;
    answer
}
