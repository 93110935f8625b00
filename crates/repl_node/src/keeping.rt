//! How far the log is kept.
ghost use Rattle.repl_node.specs.Holding.{Calls, IsIdle, disk_of};
ghost use Rattle.repl_node.specs.Keeping.{IsTrimmedNode, TrimLeavesNode};

use crate::node::Node;
use repl_disk::Disk;
use repl_lsn::Lsn;
use repl_wal::NodeFault;

impl<D: Disk> Node<D> {
    /// Raises the floor as far as the slots, the whole end and `keep` bytes before the flushed end allow, to a segment's start,
    /// and answers it. What holds a slot's log back is the position that was saved, where it lasts. The files of the segments
    /// below the floor are removed. The floor never falls.
    pub fn trim(&mut self, keep: u64) -> Result<Lsn, NodeFault>
        ensures steps { Calls D.state self.old self.new result (λ n. IsTrimmedNode n keep result) (λ n. TrimLeavesNode n keep) }
        ensures idle { IsIdle result self.old self.new }
        ensures keeps { D.keeps (disk_of self.old) (disk_of self.new) }
    {
        self.wal.trim(self.slots.floor_for(), keep)
    }
}
