//! How far the log is kept.
ghost use Rattle.std.specs.Prelude.{◌≡◌, ◌-◌, max, min, Err};
ghost use Rattle.repl_control.specs.Control.{segment_start};
ghost use Rattle.repl_store.specs.Apart.{StaysApart};
ghost use Rattle.repl_wal.specs.Holding.{Calls, IsIdle};
ghost use Rattle.repl_wal.specs.Keeping.{TrimLeaves, Trims, held_back, trimmed_floor};
ghost use Rattle.repl_wal.specs.State.{LogState, status_of_log};

use crate::fault::{NodeFault, stop};
use crate::wal::Wal;
use repl_disk::Disk;
use repl_lsn::{Lsn, SegSize};
use repl_store::StoreStatus;

impl<D: Disk> Wal<D> {
    /// Raises the floor as far as the position that holds the log back, if there is one, the whole end and so many bytes before
    /// the flushed end allow, to a segment's start, and answers it. The files of the segments below it are removed. The floor
    /// never falls.
    pub fn trim(&mut self, restart: Option<Lsn>, keep: u64) -> Result<Lsn, NodeFault>
        ensures steps { Calls D.state self.old self.new result (λ n. Trims n restart keep result) (λ n. TrimLeaves n restart keep) }
        ensures idle { IsIdle result self.old self.new }
        ensures apart { StaysApart (D.state self.old.disk) (D.state self.new.disk) }
        ensures keeps { D.keeps self.old.disk self.new.disk }
    {
        if self.stopped.is_some() {
            return Err(NodeFault::Broken);
        }
        let before = self.store.status();
        let floor = floor_after(&before, restart, keep);
        match self.store.raise_floor(floor) {
            Ok(()) => Ok(floor),
            Err(fault) => Err(stop(&mut self.stopped, before, fault)),
        }
    }
}

/// The floor after a trim of a log that tells this.
fn floor_after(status: &StoreStatus, restart: Option<Lsn>, keep: u64) -> Lsn
    ensures { (n : LogState) → status.now ≡ status_of_log n → result ≡ trimmed_floor n restart keep }
{
    let least = least_of(status.flushed, status.whole, restart, keep);
    raised_to(status.floor, status.ident.size, least)
}

/// The least of the position that holds the log back, if there is one, the whole end, and so many bytes before the flushed end.
fn least_of(flushed: Lsn, whole: Lsn, restart: Option<Lsn>, keep: u64) -> Lsn
    ensures { result ≡ held_back restart (min whole (flushed - keep)) }
{
    let least = flushed.0.saturating_sub(keep).min(whole.0);
    match restart {
        None => Lsn(least),
        Some(at) => Lsn(at.0.min(least)),
    }
}

/// The start of the segment of this position, but not below the origin, and not below the floor.
fn raised_to(floor: Lsn, size: SegSize, at: Lsn) -> Lsn
    ensures { result ≡ max floor (max size (segment_start size at)) }
{
    let segment = u64::from(size.bytes());
    let start = at.0 / segment * segment;
    Lsn(start.max(segment).max(floor.0))
}
