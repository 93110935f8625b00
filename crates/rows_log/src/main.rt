//! `rows_log`: the tables of tests of pages and records, of disks and of the files beside the log, read as rows from
//! standard input.
//!
//! `rows_table` says how a table is written. The subjects `disk` and `slots` have a disk in memory, and slots, which stay
//! from row to row.
#![tactic(auto)]

mod controls;
mod disks;
mod pages;
mod records;
mod slots;
mod values;
mod walks;

use repl_disk::MemoryDisk;
use repl_slots::Slots;
use rows_table::{Answer, Call, Miss, Rows, count_rows, is};
use std::alloc::Global;
use std::io;

/// What rows change.
#[derive(Drop)]
struct Subjects {
    /// The disk of the subjects `disk` and `slots`.
    disk: MemoryDisk,
    /// The slots of the subject `slots`.
    slots: Slots,
}

impl Rows for Subjects {
    fn answer(&mut self, alloc: Global, subject: &str, call: &Call) -> Answer {
        if is(subject, "disk") {
            return disks::answer(alloc, &mut self.disk, call);
        }
        if is(subject, "slots") {
            return slots::answer(alloc, &mut self.disk, &mut self.slots, call);
        }
        if is(subject, "pages") {
            return pages::answer(alloc, call);
        }
        if is(subject, "records") {
            return records::answer(alloc, call);
        }
        if is(subject, "walks") {
            return walks::answer(alloc, call);
        }
        if is(subject, "controls") {
            return controls::answer(alloc, call);
        }
        Err(Miss::Call)
    }
}

fn main(rt: HostRuntime) -> io::Result<()> {
    let subjects = Subjects {
        disk: MemoryDisk::new(rt.alloc(), Vec::new(rt.alloc())),
        slots: Slots::new(rt.alloc()),
    };
    count_rows(&rt, subjects)
}
