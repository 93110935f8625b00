//! Calls that are stopped on their way, since their disk fails.
use crate::answers::state;
use crate::making::crash;
use crate::nodes::{Nodes, make};
use rows_table::{Answer, Call, Miss, Tally, joined, text};
use std::alloc::Global;

/// More calls of the disk than a call makes here.
const STOPS: u64 = 64;

/// Makes a call whose disk fails after so many calls of it, and lets all pass again.
pub fn stop(alloc: Global, nodes: &mut Nodes, passing: u64, call: &Call) -> Answer {
    nodes.here().fuse(passing);
    let answer = make(alloc, nodes, call);
    nodes.here().fuse(u64::MAX);
    answer
}

/// Makes calls, which stand between `:`, on nodes of their own, and stops the last one at its first call of the disk, then at
/// the second, and so on, and at last not at all. Each time a crash follows, and then the last call is made once more. Answers
/// how the call ended, the state after the crash, and how the call ended then, and of equal answers in a row how many they are.
pub fn answer(alloc: Global, keep: bool, words: &[Vec<u8>]) -> Answer {
    let count = calls_made(alloc, words)?;
    if count > STOPS {
        return Err(Miss::Words);
    }
    let mut told = Tally::new(alloc);
    for passing in 0..count {
        told.take(alloc, stopped(alloc, passing, keep, words)?)?;
    }
    told.take(alloc, stopped(alloc, count, keep, words)?)?;
    told.end(alloc)
}

/// How many calls of the disk the last call makes.
fn calls_made(alloc: Global, words: &[Vec<u8>]) -> Result<u64, Miss> {
    let mut nodes = Nodes::new(alloc);
    calls_made_on(alloc, &mut nodes, words)
}

fn calls_made_on(alloc: Global, nodes: &mut Nodes, words: &[Vec<u8>]) -> Result<u64, Miss> {
    let last = before_last(alloc, nodes, words)?;
    let before = nodes.here().calls();
    make(alloc, nodes, &last)?;
    Ok(nodes.here().calls().saturating_sub(before))
}

/// What comes of the last call where so many calls of the disk pass, of a crash, and of the call once more.
fn stopped(alloc: Global, passing: u64, keep: bool, words: &[Vec<u8>]) -> Answer {
    let mut nodes = Nodes::new(alloc);
    stopped_on(alloc, &mut nodes, passing, keep, words)
}

fn stopped_on(
    alloc: Global,
    nodes: &mut Nodes,
    passing: u64,
    keep: bool,
    words: &[Vec<u8>],
) -> Answer {
    let last = before_last(alloc, nodes, words)?;
    let ended = stop(alloc, nodes, passing, &last)?;
    let left = left_by(alloc, nodes, keep)?;
    let again = make(alloc, nodes, &last)?;
    joined(alloc, &[&ended, &left, b"again".as_slice(), &again])
}

/// What stands here after a crash: a node's state, or why none is mounted.
fn left_by(alloc: Global, nodes: &mut Nodes, keep: bool) -> Answer {
    let opened = crash(alloc, nodes.here(), keep)?;
    match nodes.here().node() {
        Ok(node) => state(alloc, node),
        Err(_) => Ok(opened),
    }
}

/// Makes the calls between `:` but the last, and answers that.
fn before_last<'a>(
    alloc: Global,
    nodes: &mut Nodes,
    words: &'a [Vec<u8>],
) -> Result<Call<'a>, Miss> {
    let mut begin = 0;
    for (at, word) in words.iter().enumerate() {
        if word.as_slice() == b":".as_slice() {
            let call = call_of(words.get(begin..at).ok_or(Miss::Words)?)?;
            make(alloc, nodes, &call)?;
            begin = at.saturating_add(1);
        }
    }
    call_of(words.get(begin..).ok_or(Miss::Words)?)
}

/// The call of these words.
fn call_of(words: &[Vec<u8>]) -> Result<Call<'_>, Miss> {
    match words {
        [name, words @ ..] => Ok(Call::new(text(name)?, words)),
        [] => Err(Miss::Words),
    }
}
