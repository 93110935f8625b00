//! Receiving bytes of the log, on a standby.
ghost use Rattle.std.specs.Prelude.{◌≡◌, ◌+◌, ◌^◌, ◌≤◌, ℕ, List, length, Err, IfErr, OnOk};
ghost use Rattle.repl_store.specs.Apart.{StaysApart};
ghost use Rattle.repl_wal.specs.Holding.{Calls, IsIdle};
ghost use Rattle.repl_wal.specs.State.{LogState, status_of_log};
ghost use Rattle.repl_wal.specs.Steps.{Old};
ghost use Rattle.repl_wal.specs.Writing.{GoesOn, IsReceiveRefusal, Receives};

use crate::fault::{NodeFault, stop};
use crate::wal::{LOG_LIMIT, Wal, is_standby};
use repl_disk::Disk;
use repl_lsn::{Lsn, Tli};
use repl_store::StoreStatus;
use repl_walk::walk;
use std::alloc::Global;

impl<D: Disk> Wal<D> {
    /// Adds bytes that another node's log has at this position, on this timeline, and answers where the written bytes end.
    /// Each byte is judged once, and where all are no prefix of records none is taken (`BadRecord`).
    pub fn receive(
        &mut self,
        alloc: Global,
        tli: Tli,
        start: Lsn,
        bytes: &[u8],
    ) -> Result<Lsn, NodeFault>
        ensures steps { Calls D.state self.old self.new result (λ n. Receives n tli start bytes.now result) Old }
        ensures idle { IsIdle result self.old self.new }
        ensures apart { StaysApart (D.state self.old.disk) (D.state self.new.disk) }
        ensures keeps { D.keeps self.old.disk self.new.disk }
    {
        if self.stopped.is_some() {
            return Err(NodeFault::Broken);
        }
        let before = self.store.status();
        match receivable(&before, tli, start, bytes.len() as u64) {
            Ok(()) => {}
            Err(fault) => return Err(fault),
        }
        let mut walker = self.walker;
        match walk(&mut walker, tli, bytes) {
            Ok(()) => {}
            Err(fault) => {
                return Err(NodeFault::BadRecord {
                    at: fault.at,
                    why: fault.why,
                });
            }
        }
        match self.store.write(alloc, bytes) {
            Ok(()) => {
                self.walker = walker;
                Ok(Lsn(start.0 + bytes.len() as u64))
            }
            Err(fault) => Err(stop(&mut self.stopped, before, fault)),
        }
    }
}

/// Refuses bytes by their role, timeline, position and number.
fn receivable(status: &StoreStatus, tli: Tli, start: Lsn, count: u64) -> Result<(), NodeFault>
    ensures refused { IfErr result (λ e. (n : LogState) (bytes : List ℕ) → status.now ≡ status_of_log n → length bytes ≡ count → IsReceiveRefusal n tli start bytes e) }
    ensures passes { OnOk result ((n : LogState) → status.now ≡ status_of_log n → GoesOn n tli start) }
    ensures room { OnOk result (start + count ≤ 2 ^ 62) }
{
    if !is_standby(status.role) {
        return Err(NodeFault::NotStandby);
    }
    if tli != status.tli {
        return Err(NodeFault::WrongTimeline { own: status.tli });
    }
    if start != status.written {
        return Err(NodeFault::NotAtEnd {
            own_end: status.written,
        });
    }
    if start.0 > LOG_LIMIT || count > LOG_LIMIT - start.0 {
        return Err(NodeFault::LogFull);
    }
    Ok(())
}
