//! `rows_values`: the tables of tests of texts, positions, histories, lists and waits, read as rows from standard input.
//!
//! `rows_table` says how a table is written.
#![tactic(auto)]

mod histories;
mod lists;
mod paths;
mod positions;
mod quorum;
mod segments;
mod sync;
mod texts;

use rows_table::{Answer, Call, Miss, Rows, count_rows, is};
use std::alloc::Global;
use std::io;

/// The subjects of the table, which keep nothing from row to row.
#[derive(Drop)]
struct Subjects;

impl Rows for Subjects {
    fn answer(&mut self, alloc: Global, subject: &str, call: &Call) -> Answer {
        if is(subject, "texts") {
            return texts::answer(alloc, call);
        }
        if is(subject, "positions") {
            return positions::answer(alloc, call);
        }
        if is(subject, "segments") {
            return segments::answer(alloc, call);
        }
        if is(subject, "histories") {
            return histories::answer(alloc, call);
        }
        if is(subject, "paths") {
            return paths::answer(alloc, call);
        }
        if is(subject, "lists") {
            return lists::answer(alloc, call);
        }
        if is(subject, "quorum") {
            return quorum::answer(alloc, call);
        }
        if is(subject, "sync") {
            return sync::answer(alloc, call);
        }
        Err(Miss::Call)
    }
}

fn main(rt: HostRuntime) -> io::Result<()> {
    count_rows(&rt, Subjects)
}
