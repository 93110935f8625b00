//! `rows_hub`: the table of tests of `repl_hub`, read as rows from standard input.
//!
//! `rows_table` says how a table is written. Its one subject, `hub`, has one hub over a disk in memory, which stays from row to
//! row. A row makes an event on it, by the event's name and fields, and compares what is replied; `init` begins it anew.
#![tactic(auto)]

mod answers;
mod events;
mod hubs;
mod replies;
mod sessions;
mod values;

use repl_disk::MemoryDisk;
use repl_hub::HubState;
use rows_table::{Answer, Call, Miss, Rows, count_rows, is};
use std::alloc::Global;
use std::io;

/// What rows change.
#[derive(Drop)]
struct Subject {
    hub: Option<HubState<MemoryDisk>>,
}

impl Rows for Subject {
    fn answer(&mut self, alloc: Global, subject: &str, call: &Call) -> Answer {
        if !is(subject, "hub") {
            return Err(Miss::Call);
        }
        hubs::answer(alloc, &mut self.hub, call)
    }
}

fn main(rt: HostRuntime) -> io::Result<()> {
    count_rows(&rt, Subject { hub: None })
}
