//! `rows_wire`: the tables of tests of messages and of what they say, read as rows from standard input.
//!
//! `rows_table` says how a table is written.
#![tactic(auto)]

mod commands;
mod copies;
mod messages;
mod reader;
mod server_words;
mod tokens;
mod wire;

use rows_table::{Answer, Call, Miss, Rows, count_rows, is};
use std::alloc::Global;
use std::io;

/// The subjects of the table, which keep nothing from row to row.
#[derive(Drop)]
struct Subjects;

impl Rows for Subjects {
    fn answer(&mut self, alloc: Global, subject: &str, call: &Call) -> Answer {
        if is(subject, "messages") {
            return messages::answer(alloc, call);
        }
        if is(subject, "wire") {
            return wire::answer(alloc, call);
        }
        if is(subject, "reader") {
            return reader::answer(alloc, call);
        }
        if is(subject, "copies") {
            return copies::answer(alloc, call);
        }
        if is(subject, "commands") {
            return commands::answer(alloc, call);
        }
        if is(subject, "tokens") {
            return tokens::answer(alloc, call);
        }
        Err(Miss::Call)
    }
}

fn main(rt: HostRuntime) -> io::Result<()> {
    count_rows(&rt, Subjects)
}
