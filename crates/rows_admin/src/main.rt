//! `rows_admin`: the table of tests of `repl_admin`, read as rows from standard input.
//!
//! `rows_table` says how a table is written. All its subjects have one disk in memory, which stays from row to row, and
//! `fresh` begins anew. `tend` makes stores and looks at them; `damages` and `segments` make one store each, and then one thing
//! wrong with it after another: a row does damage to a file, has the store judged, and puts the file back. `slots` has files of
//! slots beside stores, and what is flushed past the whole end of one.
#![tactic(auto)]

mod building;
mod calls;
mod damages;
mod files;
mod stops;
mod told;
mod tools;

use repl_disk::MemoryDisk;
use rows_table::{Answer, Call, Miss, Rows, count_rows, is};
use std::alloc::Global;
use std::io;

/// The subjects of the table.
const SUBJECTS: [&str; 4] = ["tend", "damages", "segments", "slots"];

/// What rows change.
#[derive(Drop)]
struct Subject {
    disk: MemoryDisk,
}

impl Rows for Subject {
    fn answer(&mut self, alloc: Global, subject: &str, call: &Call) -> Answer {
        if !SUBJECTS.iter().any(|name| is(subject, name)) {
            return Err(Miss::Call);
        }
        calls::answer(alloc, &mut self.disk, call)
    }
}

fn main(rt: HostRuntime) -> io::Result<()> {
    let disk = MemoryDisk::new(rt.alloc(), Vec::new(rt.alloc()));
    count_rows(&rt, Subject { disk })
}
