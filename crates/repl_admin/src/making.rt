//! A node is made.
ghost use Rattle.std.specs.Prelude.{◌≡◌};
ghost use Rattle.repl_control.specs.declared.control.TheConstants.{VERSION_1_SIZE};
ghost use Rattle.repl_admin.specs.Tending.{Initiated};

use crate::lines::OK_LINE;
use crate::refusal::end_of_node;
use crate::tended::{Tended, sent_end};
use repl_control::version_1_size;
use repl_disk::Disk;
use repl_io::{Sink, write_all};
use repl_node::Node;
use repl_page::Ident;
use repl_store::Role;
use std::alloc::Global;

/// Makes a node on a disk that has no store, of this role and of the system with this identifier, whose pages have this magic
/// number, and prints `ok`. Its log begins at 0/1000000, on timeline 1, and has no byte, and it has no slots: a file of slots
/// that is there goes first.
pub fn init<D: Disk, K: Sink>(
    alloc: Global,
    disk: D,
    role: Role,
    sysid: u64,
    magic: u16,
    out: &mut K,
) -> (Tended, D)
    ensures initiated { Initiated role (record { sysid = sysid; magic = magic; size = VERSION_1_SIZE }) result.0 (D.state disk) (D.state result.1) (K.sink out.old) (K.sink out.new) }
    ensures keeps { D.keeps disk result.1 }
{
    let ident = Ident {
        sysid,
        magic,
        size: version_1_size(),
    };
    match Node::init(alloc, disk, ident, role) {
        Ok(node) => (sent_end(write_all(out, OK_LINE)), node.into_disk()),
        Err((fault, disk)) => (end_of_node(alloc, fault), disk),
    }
}
