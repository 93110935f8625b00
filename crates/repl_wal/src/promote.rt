//! Promoting a standby.
ghost use Rattle.std.specs.Prelude.{◌≡◌, ◌<◌, ◌≤◌, ◌^◌, ◌-◌, length, max, Err, IfErr, IfOk};
ghost use Rattle.repl_lsn.specs.History.{canonical, last_switch};
ghost use Rattle.repl_lsn.specs.declared.history.TheConstants.{HISTORY_LIMIT};
ghost use Rattle.repl_store.specs.Apart.{StaysApart};
ghost use Rattle.repl_wal.specs.Holding.{Calls, IsIdle};
ghost use Rattle.repl_wal.specs.Promoting.{IsChildless, PromoteLeaves, Promotes, child_of, next_number};

use crate::fault::{NodeFault, stop};
use crate::wal::{Wal, is_standby};
use repl_control::Role;
use repl_disk::Disk;
use repl_lsn::{History, HistoryFault, Lsn, Tli, history_text};
use repl_record::Walker;
use std::alloc::Global;

impl<D: Disk> Wal<D> {
    /// Makes the standby a primary, on a new timeline after its last whole record, and answers both. Its number is at least the
    /// given one and above every one that was heard of. What is written of a further record goes. Takes memory for the history
    /// and a piece of a segment.
    pub fn promote(&mut self, alloc: Global, at_least: u32) -> Result<(Tli, Lsn), NodeFault>
        ensures steps { Calls D.state self.old self.new result (λ n. Promotes n at_least result) (λ n. PromoteLeaves n at_least) }
        ensures idle { IsIdle result self.old self.new }
        ensures apart { StaysApart (D.state self.old.disk) (D.state self.new.disk) }
        ensures keeps { D.keeps self.old.disk self.new.disk }
    {
        if self.stopped.is_some() {
            return Err(NodeFault::Broken);
        }
        let before = self.store.status();
        if !is_standby(before.role) {
            return Err(NodeFault::NotStandby);
        }
        let known = match self.store.known_numbers() {
            Ok(known) => greater(known, before.tli),
            Err(fault) => return Err(stop(&mut self.stopped, before, fault)),
        };
        let whole = self.walker.last_end();
        let last = self.walker.last_start();
        let child = match child_for(alloc, self.store.path(), known, at_least, whole) {
            Ok(child) => child,
            Err(fault) => return Err(fault),
        };
        match self.store.flush(whole, last) {
            Ok(()) => {}
            Err(fault) => return Err(stop(&mut self.stopped, before, fault)),
        }
        match self.store.switch(alloc, &child, whole, last, Role::Primary) {
            Ok(()) => {
                self.walker = Walker::new(whole, last, before.ident);
                Ok((child.own(), whole))
            }
            Err(fault) => Err(stop(&mut self.stopped, before, fault)),
        }
    }
}

/// The greater of two numbers.
fn greater(a: Tli, b: Tli) -> Tli
    ensures { result ≡ max a b }
{
    if a.number() < b.number() { b } else { a }
}

/// The history of the timeline that a promotion begins at this position, where this is the greatest number that was heard of.
fn child_for(
    alloc: Global,
    path: &History,
    known: Tli,
    at_least: u32,
    switch: Lsn,
) -> Result<History, NodeFault>
    requires own { path.now.own ≤ known }
    requires past { last_switch path.now.parents ≤ switch }
    ensures made { IfOk result (λ child. (known < 2 ^ 32 - 1) × (child ≡ child_of path.now (next_number at_least known) switch)) }
    ensures short { IfOk result (λ child. length (canonical child) ≤ HISTORY_LIMIT) }
    ensures refused { IfErr result (IsChildless path.now known at_least switch) }
{
    if known.number() == u32::MAX {
        return Err(NodeFault::NoNumberLeft);
    }
    let tli = Tli(at_least.max(known.number() + 1));
    let child = match path.child(alloc, tli, switch) {
        Ok(child) => child,
        Err(_) => return Err(NodeFault::Memory),
    };
    match history_text(alloc, &child) {
        Ok(_) => Ok(child),
        Err(HistoryFault::TooLong { have }) => Err(NodeFault::HistoryFull { have }),
        Err(_) => Err(NodeFault::Memory),
    }
}
