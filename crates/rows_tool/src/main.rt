//! `rows_tool`: the tables of tests of links and of the command line of `pgnode`, read as rows from standard input.
//!
//! `rows_table` says how a table is written. The subject `operator` has a disk in memory, which stays from row to row.
#![tactic(auto)]

mod operator;
mod sinks;
mod streams;
mod tools;

use repl_disk::MemoryDisk;
use rows_table::{Answer, Call, Miss, Rows, count_rows, is};
use std::alloc::Global;
use std::io;

/// What rows change.
#[derive(Drop)]
struct Subjects {
    /// The disk of the subject `operator`.
    disk: MemoryDisk,
}

impl Rows for Subjects {
    fn answer(&mut self, alloc: Global, subject: &str, call: &Call) -> Answer {
        if is(subject, "operator") {
            return operator::answer(alloc, &mut self.disk, call);
        }
        if is(subject, "streams") {
            return streams::answer(alloc, call);
        }
        if is(subject, "tools") {
            return tools::answer(alloc, call);
        }
        Err(Miss::Call)
    }
}

fn main(rt: HostRuntime) -> io::Result<()> {
    let disk = MemoryDisk::new(rt.alloc(), Vec::new(rt.alloc()));
    count_rows(&rt, Subjects { disk })
}
