//! `rows_store`: the table of tests of `repl_store`, read as rows from standard input.
//!
//! `rows_table` says how a table is written. Its one subject, `store`, has a disk in memory, on which a store may be
//! mounted; both stay from row to row, and `fresh` begins anew. A row `stops` has a disk and a store of its own.
#![tactic(auto)]

mod calls;
mod files;
mod place;
mod stops;
mod told;

use place::Place;
use rows_table::{Answer, Call, Miss, Rows, count_rows, is};
use std::alloc::Global;
use std::io;

/// What rows change.
#[derive(Drop)]
struct Subject {
    place: Place,
}

impl Rows for Subject {
    fn answer(&mut self, alloc: Global, subject: &str, call: &Call) -> Answer {
        if !is(subject, "store") {
            return Err(Miss::Call);
        }
        if let Some([how, way, words @ ..]) = call.words("stops") {
            return stops::answer(alloc, how, way, words);
        }
        calls::answer(alloc, &mut self.place, call)
    }
}

fn main(rt: HostRuntime) -> io::Result<()> {
    let place = Place::fresh(rt.alloc(), Vec::new(rt.alloc()));
    count_rows(&rt, Subject { place })
}
