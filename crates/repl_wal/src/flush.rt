//! Making certain what was written, and a primary into a standby.
ghost use Rattle.std.specs.Prelude.{◌≡◌, Err};
ghost use Rattle.repl_effects.specs.Counts.{Rose};
ghost use Rattle.repl_store.specs.Apart.{StaysApart};
ghost use Rattle.repl_wal.specs.Holding.{Calls, IsIdle, Remembers};
ghost use Rattle.repl_wal.specs.State.{LogState, flushed_end, written_end};
ghost use Rattle.repl_wal.specs.Writing.{DemoteLeaves, Demotes, FlushLeaves, Flushes};
ghost use Rattle.repl_wal.specs.declared.fault.NodeFault.TheVariants as NodeFault;

use crate::fault::{NodeFault, stop};
use crate::wal::{Wal, is_standby};
use repl_control::Role;
use repl_disk::Disk;
use repl_lsn::Lsn;

impl<D: Disk> Wal<D> {
    /// Makes all written bytes certain, and answers where they end. Where nothing was written since the last flush it makes
    /// no call of the disk. Takes no memory but the disk's.
    pub fn flush(&mut self) -> Result<Lsn, NodeFault>
        ensures steps { Calls D.state self.old self.new result (λ n. Flushes n result) FlushLeaves }
        ensures still { (n : LogState) → Remembers self.old.log n → written_end n ≡ flushed_end n → self.new.disk ≡ self.old.disk }
        ensures idle { IsIdle result self.old self.new }
        ensures wants { result ≡ Err NodeFault.Memory → Rose (D.state self.old.disk).wants (D.state self.new.disk).wants }
        ensures apart { StaysApart (D.state self.old.disk) (D.state self.new.disk) }
        ensures keeps { D.keeps self.old.disk self.new.disk }
    {
        if self.stopped.is_some() {
            return Err(NodeFault::Broken);
        }
        let before = self.store.status();
        match self
            .store
            .flush(self.walker.last_end(), self.walker.last_start())
        {
            Ok(()) => Ok(before.written),
            Err(fault) => Err(stop(&mut self.stopped, before, fault)),
        }
    }

    /// Makes all written bytes certain and a primary into a standby, by one renaming of the control. A standby is refused
    /// (`NotPrimary`). Takes no memory but the disk's.
    pub fn demote(&mut self) -> Result<(), NodeFault>
        ensures steps { Calls D.state self.old self.new result (λ n. Demotes n result) DemoteLeaves }
        ensures idle { IsIdle result self.old self.new }
        ensures wants { result ≡ Err NodeFault.Memory → Rose (D.state self.old.disk).wants (D.state self.new.disk).wants }
        ensures apart { StaysApart (D.state self.old.disk) (D.state self.new.disk) }
        ensures keeps { D.keeps self.old.disk self.new.disk }
    {
        if self.stopped.is_some() {
            return Err(NodeFault::Broken);
        }
        let before = self.store.status();
        if is_standby(before.role) {
            return Err(NodeFault::NotPrimary);
        }
        let whole = self.walker.last_end();
        match self
            .store
            .set_role(Role::Standby, whole, self.walker.last_start())
        {
            Ok(()) => Ok(()),
            Err(fault) => Err(stop(&mut self.stopped, before, fault)),
        }
    }
}
