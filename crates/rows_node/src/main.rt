//! `rows_node`: the table of tests of `repl_node`, read as rows from standard input.
//!
//! `rows_table` says how a table is written. Its one subject, `node`, has three nodes over disks in memory, which stay from row to
//! row: `node K` says of which one the rows speak that follow, and `init` begins it anew. A row `stops` has nodes of its own.
#![tactic(auto)]

mod answers;
mod calls;
mod making;
mod nodes;
mod pairs;
mod place;
mod stops;
mod sums;

use crate::nodes::Nodes;
use rows_table::{Answer, Call, Miss, Rows, count_rows, is};
use std::alloc::Global;
use std::io;

/// What rows change.
#[derive(Drop)]
struct Subject {
    nodes: Nodes,
}

impl Rows for Subject {
    fn answer(&mut self, alloc: Global, subject: &str, call: &Call) -> Answer {
        if !is(subject, "node") {
            return Err(Miss::Call);
        }
        nodes::answer(alloc, &mut self.nodes, call)
    }
}

fn main(rt: HostRuntime) -> io::Result<()> {
    let nodes = Nodes::new(rt.alloc());
    count_rows(&rt, Subject { nodes })
}
