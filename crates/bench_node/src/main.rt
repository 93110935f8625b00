//! What bench/node.sh times: a node over a folder, which receives a log of records, or appends one.
//!
//! `bench_node FOLDER MIB` makes a standby in the folder, which is there and has none. For each 16 of so many MiB it
//! lays out records with bodies of 8 KiB, receives them in pieces of 128 KiB, and flushes. `bench_node FOLDER COUNT
//! appends` makes a primary, appends so many records with bodies of 100 bytes, and flushes once. Both print up to where the
//! log is flushed, how many microseconds that took, and how many more the laying out of what was received. Without the first
//! two words nothing is made, and the position 0/0 is printed.
#![tactic(auto)]

mod appends;
mod receives;
mod records;

use repl_control::{Role, version_1_size};
use repl_disk::FolderDisk;
use repl_lsn::Lsn;
use repl_node::Node;
use repl_page::Ident;
use std::env;
use std::process::ExitCode;
use std::rt::{Clock, Env};
use std::time::Instant;

/// What came of it.
#[derive(Clone, Copy)]
pub struct Figures {
    /// The flushed end.
    pub end: Lsn,
    /// How many microseconds the calls of the node took.
    pub calls: u64,
    /// How many the laying out of records took, which no call did.
    pub laying: u64,
}

fn main(rt: HostRuntime) -> ExitCode {
    let figures = match run(rt) {
        Some(figures) => figures,
        None => Figures {
            end: Lsn(0),
            calls: 0,
            laying: 0,
        },
    };
    let Figures { end, calls, laying } = figures;
    match println!(rt;
        "flushed up to {end} in {calls} microseconds, beside {laying} of laying out"
    ) {
        Ok(()) => ExitCode::SUCCESS,
        Err(_) => ExitCode::FAILURE,
    }
}

/// Makes the node that the words of the command line name, and has it receive or append.
fn run(rt: HostRuntime) -> Option<Figures> {
    let mut words = env::args(&rt).ok()?.skip(1);
    let folder = words.next()?;
    let count = words.next()?.as_str().parse::<u64>().ok()?;
    let of_appends = match words.next() {
        Some(word) => word.as_str() == "appends",
        None => false,
    };
    let disk = FolderDisk::new(rt, folder.as_str()).ok()?;
    let ident = Ident {
        sysid: 7,
        magic: 0xd116,
        size: version_1_size(),
    };
    let role = if of_appends {
        Role::Primary
    } else {
        Role::Standby
    };
    let Ok(mut node) = Node::init(rt.alloc(), disk, ident, role) else {
        return None;
    };
    if of_appends {
        appends::append(&rt, rt.alloc(), &mut node, count)
    } else {
        receives::receive(&rt, rt.alloc(), &mut node, ident, count)
    }
}

/// How many microseconds have passed since then.
pub fn since(clock: &impl Clock, start: Instant) -> Option<u64> {
    let passed = start.elapsed(clock).ok()?;
    u64::try_from(passed.as_micros()).ok()
}
