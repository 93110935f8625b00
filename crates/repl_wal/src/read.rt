//! Reading the log along its path.
ghost use Rattle.std.specs.Prelude.{◌≡◌, ◌<◌, ◌≤◌, ◌^◌, ◌+◌, length, Err, IfErr, IfOk, MatchOption};
ghost use Rattle.repl_lsn.specs.Path.{HasTimeline};
ghost use Rattle.repl_store.specs.Apart.{StaysApart};
ghost use Rattle.repl_wal.specs.Holding.{Calls, IsIdle};
ghost use Rattle.repl_wal.specs.Reading.{CanRead, IsEnd, IsRange, IsReadRefusal, Reads, read_count};
ghost use Rattle.repl_wal.specs.State.{LogState, path_of, status_of_log};
ghost use Rattle.repl_wal.specs.Steps.{Old};
ghost use Rattle.repl_wal.specs.declared.fault.NodeFault.TheVariants as NodeFault;
ghost use Rattle.repl_wal.specs.declared.read.ReadOut.TheVariants as ReadOut;

use crate::fault::{NodeFault, stop};
use crate::wal::Wal;
use repl_disk::Disk;
use repl_lsn::{History, Lsn, Tli};
use repl_page::PAGE_SIZE;
use repl_store::StoreStatus;
use std::alloc::Global;

/// The size of a page as positions count.
const PAGE: u64 = PAGE_SIZE as u64;

/// What is answered to a read.
#[derive(Clone, Copy, Debug, PartialEq, Eq)]
pub enum ReadOut {
    /// So many bytes were read.
    Bytes(usize),
    /// The position is the flushed end.
    AtEnd,
    /// At this position the timeline was left for the next one.
    Ended { next: Tli, switch: Lsn },
}

/// What there is to read from a position on.
#[derive(Clone, Copy)]
enum Range {
    /// Bytes up to this position.
    UpTo(Lsn),
    /// Nothing, and this is answered.
    Nothing(ReadOut),
}

impl<D: Disk> Wal<D> {
    /// Reads the log's bytes from the position on into the front of the room, as far as they are of this timeline or of those
    /// before it, and are flushed. Where there is more than room, it ends with the last page's start in the room, if one is
    /// past the position. Takes memory for the names of segments.
    pub fn read(
        &mut self,
        alloc: Global,
        tli: Tli,
        at: Lsn,
        room: &mut [u8],
    ) -> Result<ReadOut, NodeFault>
        ensures steps { Calls D.state self.old self.new result (λ n. Reads n tli at room.old room.new result) Old }
        ensures idle { IsIdle result self.old self.new }
        ensures apart { StaysApart (D.state self.old.disk) (D.state self.new.disk) }
        ensures keeps { D.keeps self.old.disk self.new.disk }
    {
        if self.stopped.is_some() {
            return Err(NodeFault::Broken);
        }
        let before = self.store.status();
        let range = match range_of(self.store.path(), &before, tli, at) {
            Ok(range) => range,
            Err(fault) => return Err(fault),
        };
        match range {
            Range::Nothing(answer) => Ok(answer),
            Range::UpTo(end) => {
                let count = read_count(at, end, room.len());
                match self.store.read_into(alloc, at, &mut room[..count]) {
                    Ok(()) => Ok(ReadOut::Bytes(count)),
                    Err(fault) => Err(stop(&mut self.stopped, before, fault)),
                }
            }
        }
    }
}

/// What there is to read of a timeline from a position on.
fn range_of(path: &History, status: &StoreStatus, tli: Tli, at: Lsn) -> Result<Range, NodeFault>
    ensures refused { IfErr result (λ e. (n : LogState) → path.now ≡ path_of n → status.now ≡ status_of_log n → IsReadRefusal n tli at e) }
    ensures range { IfOk result (λ range. (n : LogState) → path.now ≡ path_of n → status.now ≡ status_of_log n → CanRead n tli at × IsRange n tli at range) }
{
    let (end, next) = match end_of(path, status.flushed, tli) {
        Ok(found) => found,
        Err(fault) => return Err(fault),
    };
    if end < at {
        return Err(past(next, end));
    }
    if at < status.floor {
        return Err(NodeFault::Removed {
            floor: status.floor,
        });
    }
    if at == end {
        return Ok(Range::Nothing(over(next, end)));
    }
    Ok(Range::UpTo(end))
}

/// Where what can be read of a timeline ends, and the timeline that it was left for there.
fn end_of(path: &History, flushed: Lsn, tli: Tli) -> Result<(Lsn, Option<Tli>), NodeFault>
    ensures end { IfOk result (λ found. IsEnd path.now flushed tli found.0 found.1) }
    ensures none { IfErr result (λ e. (e ≡ NodeFault.NotInHistory tli) × ¬ HasTimeline path.now tli) }
{
    match (path.end_of(tli), path.next_of(tli)) {
        (Some(switch), Some(next)) => Ok((switch, Some(next))),
        (Some(_), None) => unreachable!(),
        (None, _) => {
            if tli == path.own() {
                Ok((flushed, None))
            } else {
                Err(NodeFault::NotInHistory(tli))
            }
        }
    }
}

/// Why nothing is read after where the timeline ends, which the next one goes on from, or past the flushed end.
fn past(next: Option<Tli>, end: Lsn) -> NodeFault
    ensures { MatchOption next (result ≡ NodeFault.Ahead end) (λ tli. result ≡ NodeFault.AfterSwitch tli end) }
{
    match next {
        Some(next) => NodeFault::AfterSwitch { next, switch: end },
        None => NodeFault::Ahead { flushed: end },
    }
}

/// What is answered there.
fn over(next: Option<Tli>, end: Lsn) -> ReadOut
    ensures { MatchOption next (result ≡ ReadOut.AtEnd) (λ tli. result ≡ ReadOut.Ended tli end) }
{
    match next {
        Some(next) => ReadOut::Ended { next, switch: end },
        None => ReadOut::AtEnd,
    }
}

/// How many bytes are read from a position on into so much room, where they end there.
fn read_count(at: Lsn, end: Lsn, room: usize) -> usize
    requires some { at < end }
    requires limit { end ≤ 2 ^ 63 }
    requires room { room < 2 ^ 63 }
    ensures value { result ≡ read_count at end room }
    ensures within { (result ≤ room) × (at + result ≤ end) }
{
    let full = at.0 + room as u64;
    if end.0 <= full {
        return (end.0 - at.0) as usize;
    }
    let cut = full - full % PAGE;
    if at.0 < cut {
        (cut - at.0) as usize
    } else {
        room
    }
}
