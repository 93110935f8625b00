//! What a node is, and how far its log stands.
ghost use Rattle.std.specs.Prelude.{◌≡◌};
ghost use Rattle.repl_admin.specs.Damages.{IsToldOfLog, IsToldOfMount};
ghost use Rattle.repl_admin.specs.Lines.{status_line};
ghost use Rattle.repl_admin.specs.Printing.{IsPrinted};
ghost use Rattle.repl_admin.specs.Tending.{Stated};

use crate::damage::end_of_store;
use crate::judging::log_damage;
use crate::lines::status_line;
use crate::refusal::end_of_node;
use crate::tended::{Tended, sent_end};
use repl_disk::Disk;
use repl_io::{Sink, write_all};
use repl_lsn::Lsn;
use repl_node::{Identity, Node, NodeFault};
use repl_record::WalkReason;
use repl_store::Store;
use std::alloc::Global;

/// Prints what the node on the disk is and how far its log stands: `SYSID ROLE TLI FLOOR WHOLE FLUSHED` on one line, where the
/// floor, the whole end and the flushed end are positions of the log. Of the log it reads what is flushed past the whole end;
/// takes memory for a piece of that, and for the slots. The files stay as they are.
pub fn status<D: Disk, K: Sink>(alloc: Global, disk: D, out: &mut K) -> (Tended, D)
    ensures stated { Stated result.0 (D.state disk) (D.state result.1) (K.sink out.old) (K.sink out.new) }
    ensures keeps { D.keeps disk result.1 }
{
    match Node::mount(alloc, disk) {
        Ok(node) => {
            let end = print_status(alloc, &node.identify(), out);
            (end, node.into_disk())
        }
        Err((fault, disk)) => end_of_mount(alloc, disk, fault),
    }
}

/// Writes the line of a node.
fn print_status<K: Sink>(alloc: Global, identity: &Identity, out: &mut K) -> Tended
    ensures { IsPrinted (status_line identity.now) result (K.sink out.old) (K.sink out.new) }
{
    match status_line(alloc, identity) {
        Ok(line) => sent_end(write_all(out, line.as_bytes())),
        Err(_) => Tended::Memory,
    }
}

/// How it ends where the node on this disk is refused so.
fn end_of_mount<D: Disk>(alloc: Global, disk: D, fault: NodeFault) -> (Tended, D)
    ensures told { IsToldOfMount fault result.0 (result.1 ≡ disk) (D.state disk) (D.state result.1) }
    ensures keeps { D.keeps disk result.1 }
{
    match fault {
        NodeFault::Damaged { at, why } => end_of_log(alloc, disk, at, why),
        fault => (end_of_node(alloc, fault), disk),
    }
}

/// How it ends where the log past the whole end is wrong at this position. The file is named by the path of the store, which
/// is opened once more for it; what refuses that is told.
fn end_of_log<D: Disk>(alloc: Global, disk: D, at: Lsn, why: WalkReason) -> (Tended, D)
    ensures told { IsToldOfLog at why result.0 (D.state disk) (D.state result.1) }
    ensures keeps { D.keeps disk result.1 }
{
    match Store::mount(alloc, disk) {
        Ok(store) => {
            let end = log_damage(alloc, store.path(), at, why);
            (end, store.into_disk())
        }
        Err((fault, disk)) => (end_of_store(alloc, fault), disk),
    }
}
