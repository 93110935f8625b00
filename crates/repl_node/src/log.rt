//! The calls that concern the log: they are the log's own, and the slots stay as they were.
ghost use Rattle.std.specs.Prelude.{◌≡◌, ◌≢◌, Err};
ghost use Rattle.repl_effects.specs.Counts.{Rose};
ghost use Rattle.repl_node.specs.Holding.{Calls, IsIdle, Remembers, SameDisk, disk_of};
ghost use Rattle.repl_node.specs.State.{LeftOf, NodeState};
ghost use Rattle.repl_node.specs.Steps.{OfLog};
ghost use Rattle.repl_wal.specs.Following.{FollowLeaves, Follows};
ghost use Rattle.repl_wal.specs.Promoting.{PromoteLeaves, Promotes};
ghost use Rattle.repl_wal.specs.Reading.{Reads};
ghost use Rattle.repl_wal.specs.State.{flushed_end, path_of, written_end};
ghost use Rattle.repl_wal.specs.Steps.{Old, Only, Step};
ghost use Rattle.repl_wal.specs.Telling.{IsHistoryOf, IsHistoryRefusal};
ghost use Rattle.repl_wal.specs.Writing.{Appends, DemoteLeaves, Demotes, FlushLeaves, Flushes, Receives};
ghost use Rattle.repl_wal.specs.declared.fault.NodeFault.TheVariants as NodeFault;

use crate::node::Node;
use repl_disk::Disk;
use repl_lsn::{History, Lsn, Tli};
use repl_record::RecordIn;
use repl_wal::{NodeFault, ReadOut};
use std::alloc::Global;

impl<D: Disk> Node<D> {
    /// Appends a record after the last one, and answers where it ends. It is certain on the disk from the next `flush` on.
    /// Takes memory for the record's image, once.
    pub fn append(&mut self, alloc: Global, item: &RecordIn) -> Result<Lsn, NodeFault>
        ensures steps { Calls D.state self.old self.new result (λ n. OfLog n (Appends n.log item.now result)) (λ n. LeftOf n (Old n.log)) }
        ensures idle { IsIdle result self.old self.new }
        ensures keeps { D.keeps (disk_of self.old) (disk_of self.new) }
    {
        self.wal.append(alloc, item)
    }

    /// Adds bytes that another node's log has at this position, on this timeline, and answers where the written bytes end.
    /// Each byte is judged once, and where all are no prefix of records none is taken (`BadRecord`).
    pub fn receive(
        &mut self,
        alloc: Global,
        tli: Tli,
        start: Lsn,
        bytes: &[u8],
    ) -> Result<Lsn, NodeFault>
        ensures steps { Calls D.state self.old self.new result (λ n. OfLog n (Receives n.log tli start bytes.now result)) (λ n. LeftOf n (Old n.log)) }
        ensures idle { IsIdle result self.old self.new }
        ensures keeps { D.keeps (disk_of self.old) (disk_of self.new) }
    {
        self.wal.receive(alloc, tli, start, bytes)
    }

    /// Makes all written bytes certain, and answers where they end. Where nothing was written since the last flush it makes
    /// no call of the disk. Takes no memory but the disk's.
    pub fn flush(&mut self) -> Result<Lsn, NodeFault>
        ensures steps { Calls D.state self.old self.new result (λ n. OfLog n (Flushes n.log result)) (λ n. LeftOf n (FlushLeaves n.log)) }
        ensures still { (n : NodeState) → Remembers self.old n → written_end n.log ≡ flushed_end n.log → SameDisk self.old self.new }
        ensures idle { IsIdle result self.old self.new }
        ensures wants { result ≡ Err NodeFault.Memory → Rose (D.state (disk_of self.old)).wants (D.state (disk_of self.new)).wants }
        ensures keeps { D.keeps (disk_of self.old) (disk_of self.new) }
    {
        self.wal.flush()
    }

    /// Makes all written bytes certain and a primary into a standby, by one renaming of the control. A standby is refused
    /// (`NotPrimary`). Takes no memory but the disk's.
    pub fn demote(&mut self) -> Result<(), NodeFault>
        ensures steps { Calls D.state self.old self.new result (λ n. OfLog n (Demotes n.log result)) (λ n. LeftOf n (DemoteLeaves n.log)) }
        ensures idle { IsIdle result self.old self.new }
        ensures wants { result ≡ Err NodeFault.Memory → Rose (D.state (disk_of self.old)).wants (D.state (disk_of self.new)).wants }
        ensures keeps { D.keeps (disk_of self.old) (disk_of self.new) }
    {
        self.wal.demote()
    }

    /// Makes the standby a primary, on a new timeline after its last whole record, and answers both. Its number is at least the
    /// given one and above every one that was heard of. What is written of a further record goes. Takes memory for the history
    /// and a piece of a segment.
    pub fn promote(&mut self, alloc: Global, at_least: u32) -> Result<(Tli, Lsn), NodeFault>
        ensures steps { Calls D.state self.old self.new result (λ n. OfLog n (Promotes n.log at_least result)) (λ n. LeftOf n (PromoteLeaves n.log at_least)) }
        ensures idle { IsIdle result self.old self.new }
        ensures keeps { D.keeps (disk_of self.old) (disk_of self.new) }
    {
        self.wal.promote(alloc, at_least)
    }

    /// Goes on with a timeline that another node began where this log's whole records end. What is written or flushed
    /// after that goes. Takes memory for the history and a piece of a segment.
    pub fn follow(&mut self, alloc: Global, child: &History) -> Result<(), NodeFault>
        ensures steps { Calls D.state self.old self.new result (λ n. OfLog n (Follows n.log child.now result)) (λ n. LeftOf n (FollowLeaves n.log child.now)) }
        ensures idle { IsIdle result self.old self.new }
        ensures keeps { D.keeps (disk_of self.old) (disk_of self.new) }
    {
        self.wal.follow(alloc, child)
    }

    /// Reads the log's bytes from the position on into the front of the room, as far as they are of this timeline or of those
    /// before it, and are flushed. Where there is more than room, it ends with the last page's start in the room, if one is
    /// past the position. Takes memory for the names of segments.
    pub fn read(
        &mut self,
        alloc: Global,
        tli: Tli,
        at: Lsn,
        room: &mut [u8],
    ) -> Result<ReadOut, NodeFault>
        ensures steps { Calls D.state self.old self.new result (λ n. OfLog n (Reads n.log tli at room.old room.new result)) (λ n. LeftOf n (Old n.log)) }
        ensures idle { IsIdle result self.old self.new }
        ensures keeps { D.keeps (disk_of self.old) (disk_of self.new) }
    {
        self.wal.read(alloc, tli, at, room)
    }

    /// The canonical text of the history of a timeline on the path. Timeline 1 has none. Makes no call of the disk, and takes
    /// memory for the text.
    pub fn history(&self, alloc: Global, tli: Tli) -> Result<Vec<u8>, NodeFault>
        ensures { (n : NodeState) → Remembers self.now n →
            Step (IsHistoryRefusal (path_of n.log) tli) (tli ≢ 1) (λ text m. IsHistoryOf (path_of n.log) tli text.items × (m ≡ n.log)) (Only n.log) n.log result n.log }
    {
        self.wal.history(alloc, tli)
    }
}
