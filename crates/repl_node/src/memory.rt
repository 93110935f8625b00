//! A node over a disk in memory, which crashes and fails as it is told.
ghost use Rattle.std.specs.Prelude.{◌≡◌, Some};
ghost use Rattle.repl_disk.specs.Memory.{Memory, state_of};
ghost use Rattle.repl_node.specs.Holding.{Holds, disk_of};
ghost use Rattle.repl_node.specs.State.{NodeState};

use crate::node::Node;
use repl_disk::MemoryDisk;

impl Node<MemoryDisk> {
    /// Lets so many calls of the disk pass, and then each fails, until a crash. An earlier fuse is forgotten.
    pub fn fuse(&mut self, k: u64)
        ensures set { (disk_of self.new).fuse ≡ Some k }
        ensures same { (n : NodeState) → Holds (state_of (disk_of self.old)) self.old n → Holds (state_of (disk_of self.new)) self.new n }
    {
        self.wal.disk_mut().fuse(k);
    }

    /// How many calls of the disk were made so far; it stops at 2^64 - 1.
    pub fn calls(&self) -> u64
        ensures { result ≡ (disk_of self.now).count }
    {
        self.wal.disk().calls()
    }
}
