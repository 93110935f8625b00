//! Events that are calls of the node on its log.
ghost use Rattle.std.specs.Prelude.{◌≡◌, take, Err, MatchResult};
ghost use Rattle.repl_hub.specs.Holding.{Calls, disk_of};
ghost use Rattle.repl_hub.specs.Log.{IsAppend, IsCarried, IsDemote, IsFlush, IsFollow, IsHistory, IsPromote, IsRead, IsReceive, IsSharedOf, IsTrim, read_room};
ghost use Rattle.repl_hub.specs.declared.reply.LogRead.TheVariants as LogRead;
ghost use Rattle.repl_node.specs.Keeping.{TrimLeavesNode};
ghost use Rattle.repl_node.specs.State.{LeftOf};
ghost use Rattle.repl_node.specs.Steps.{SameLeft};
ghost use Rattle.repl_wal.specs.Following.{FollowLeaves};
ghost use Rattle.repl_wal.specs.Promoting.{PromoteLeaves};
ghost use Rattle.repl_wal.specs.Writing.{DemoteLeaves, FlushLeaves};
ghost use Rattle.repl_wal.specs.declared.fault.NodeFault.TheVariants as NodeFault;

use crate::hub::HubState;
use crate::reply::LogRead;
use bytes::Bytes;
use repl_disk::Disk;
use repl_lsn::{History, Lsn, Tli};
use repl_node::{NodeFault, ReadOut};
use repl_record::RecordIn;

/// The most bytes that one `Read` gives.
pub const READ_LIMIT: u64 = 131_072;

// What a session buffers depends on this number.
const _: () = prove!(READ_LIMIT == 131_072);

impl<D: Disk> HubState<D> {
    /// The text of a timeline's history. Takes memory for it.
    pub(crate) fn history(&mut self, tli: Tli) -> Result<Bytes, NodeFault>
        ensures steps { Calls D.state self.old self.new result (λ h. IsHistory h tli result) (λ h. SameLeft h.node) }
        ensures keeps { D.keeps (disk_of self.old) (disk_of self.new) }
    {
        shared_text(self.node.history(self.alloc, tli))
    }

    /// The log's bytes from a position on. Takes memory for them.
    pub(crate) fn read(&mut self, tli: Tli, at: Lsn, most: u64) -> Result<LogRead, NodeFault>
        ensures steps { Calls D.state self.old self.new result (λ h. IsRead h tli at most result) (λ h. SameLeft h.node) }
        ensures keeps { D.keeps (disk_of self.old) (disk_of self.new) }
    {
        if self.node.is_broken() {
            return Err(NodeFault::Broken);
        }
        let mut room = match vec![in self.alloc; 0; read_room(most)] {
            Ok(room) => room,
            Err(_) => return Err(NodeFault::Memory),
        };
        let out = match self.node.read(self.alloc, tli, at, &mut room) {
            Ok(out) => out,
            Err(fault) => return Err(fault),
        };
        log_read(out, room)
    }

    /// A record is added. Takes memory for its image.
    pub(crate) fn append(&mut self, item: &RecordIn) -> Result<Lsn, NodeFault>
        ensures steps { Calls D.state self.old self.new result (λ h. IsAppend h item.now result) (λ h. SameLeft h.node) }
        ensures keeps { D.keeps (disk_of self.old) (disk_of self.new) }
    {
        self.node.append(self.alloc, item)
    }

    /// All written bytes are made certain.
    pub(crate) fn flush(&mut self) -> Result<Lsn, NodeFault>
        ensures steps { Calls D.state self.old self.new result (λ h. IsFlush h result) (λ h. LeftOf h.node (FlushLeaves h.node.log)) }
        ensures keeps { D.keeps (disk_of self.old) (disk_of self.new) }
    {
        self.node.flush()
    }

    /// Bytes of another node's log are added.
    pub(crate) fn receive(&mut self, tli: Tli, start: Lsn, bytes: &[u8]) -> Result<Lsn, NodeFault>
        ensures steps { Calls D.state self.old self.new result (λ h. IsReceive h tli start bytes.now result) (λ h. SameLeft h.node) }
        ensures keeps { D.keeps (disk_of self.old) (disk_of self.new) }
    {
        self.node.receive(self.alloc, tli, start, bytes)
    }

    /// The node goes over to a child of its timeline, and then no session streams and no report counts.
    pub(crate) fn follow(&mut self, child: &History) -> Result<(), NodeFault>
        ensures steps { Calls D.state self.old self.new result (λ h. IsFollow h child.now result) (λ h. LeftOf h.node (FollowLeaves h.node.log child.now)) }
        ensures keeps { D.keeps (disk_of self.old) (disk_of self.new) }
    {
        match self.node.follow(self.alloc, child) {
            Ok(()) => {
                self.sync.new_timeline();
                Ok(())
            }
            Err(fault) => Err(fault),
        }
    }

    /// The node becomes a primary on a new timeline, and then no session streams and no report counts.
    pub(crate) fn promote(&mut self, at_least: u32) -> Result<(Tli, Lsn), NodeFault>
        ensures steps { Calls D.state self.old self.new result (λ h. IsPromote h at_least result) (λ h. LeftOf h.node (PromoteLeaves h.node.log at_least)) }
        ensures keeps { D.keeps (disk_of self.old) (disk_of self.new) }
    {
        match self.node.promote(self.alloc, at_least) {
            Ok(begun) => {
                self.sync.new_timeline();
                Ok(begun)
            }
            Err(fault) => Err(fault),
        }
    }

    /// The node becomes a standby, and then nobody waits.
    pub(crate) fn demote(&mut self) -> Result<(), NodeFault>
        ensures steps { Calls D.state self.old self.new result (λ h. IsDemote h result) (λ h. LeftOf h.node (DemoteLeaves h.node.log)) }
        ensures keeps { D.keeps (disk_of self.old) (disk_of self.new) }
    {
        match self.node.demote() {
            Ok(()) => {
                self.sync.cancel_all();
                Ok(())
            }
            Err(fault) => Err(fault),
        }
    }

    /// The floor rises.
    pub(crate) fn trim(&mut self, keep: u64) -> Result<Lsn, NodeFault>
        ensures steps { Calls D.state self.old self.new result (λ h. IsTrim h keep result) (λ h. TrimLeavesNode h.node keep) }
        ensures keeps { D.keeps (disk_of self.old) (disk_of self.new) }
    {
        self.node.trim(keep)
    }
}

/// How many bytes a reply carries that is to have so many.
fn read_room(most: u64) -> usize
    ensures { result ≡ read_room most }
{
    most.max(1).min(READ_LIMIT) as usize
}

/// What was read into this room, as a reply carries it.
fn log_read(out: ReadOut, room: Vec<u8>) -> Result<LogRead, NodeFault>
    ensures { IsCarried out room.items result }
{
    match out {
        ReadOut::Bytes(count) => front(room, count),
        ReadOut::AtEnd => Ok(LogRead::AtEnd),
        ReadOut::Ended { next, switch } => Ok(ended(next, switch)),
    }
}

/// The timeline was left here.
fn ended(next: Tli, switch: Lsn) -> LogRead
    ensures { result ≡ LogRead.Ended next switch }
{
    LogRead::Ended { next, switch }
}

/// So many of the bytes, from the first one on.
fn front(room: Vec<u8>, count: usize) -> Result<LogRead, NodeFault>
    ensures { MatchResult result (λ read. read ≡ LogRead.Bytes (take count room.items)) (λ e. e ≡ NodeFault.Memory) }
{
    let mut room = room;
    room.truncate(count);
    match Bytes::from_vec(room) {
        Ok(bytes) => Ok(LogRead::Bytes(bytes)),
        Err(_) => Err(NodeFault::Memory),
    }
}

/// The text of a history, as a reply carries it.
fn shared_text(text: Result<Vec<u8>, NodeFault>) -> Result<Bytes, NodeFault>
    ensures { MatchResult text (λ text. IsSharedOf text.items result) (λ fault. result ≡ Err fault) }
{
    match text {
        Ok(text) => match Bytes::from_vec(text) {
            Ok(bytes) => Ok(bytes),
            Err(_) => Err(NodeFault::Memory),
        },
        Err(fault) => Err(fault),
    }
}
