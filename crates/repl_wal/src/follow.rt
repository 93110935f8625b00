//! Following a timeline that another node began.
ghost use Rattle.std.specs.Prelude.{◌≡◌, ◌<◌, length, Err, IfErr, IfOk, OnOk, MatchOption};
ghost use Rattle.repl_lsn.specs.History.{last_switch};
ghost use Rattle.repl_lsn.specs.Path.{DifferAt};
ghost use Rattle.repl_wal.specs.Following.{CanFollow, FollowLeaves, Follows, IsNoChild, IsOneMore, IsUnfollowed, Leaves};
ghost use Rattle.repl_store.specs.Apart.{StaysApart};
ghost use Rattle.repl_wal.specs.Holding.{Calls, IsIdle};
ghost use Rattle.repl_wal.specs.State.{LogState, path_of, status_of_log};

use crate::fault::{NodeFault, stop};
use crate::wal::{Wal, is_standby};
use repl_control::Role;
use repl_disk::Disk;
use repl_lsn::{History, HistoryFault, Lsn, Relation, history_text};
use repl_record::Walker;
use repl_store::StoreStatus;
use std::alloc::Global;

impl<D: Disk> Wal<D> {
    /// Goes over to a timeline that another node began where this standby's whole records end. Its history has one parent
    /// more than the log's path, the own timeline. What is written or flushed of a further record goes. Takes memory for the
    /// history and a piece of a segment.
    pub fn follow(&mut self, alloc: Global, child: &History) -> Result<(), NodeFault>
        ensures steps { Calls D.state self.old self.new result (λ n. Follows n child.now result) (λ n. FollowLeaves n child.now) }
        ensures idle { IsIdle result self.old self.new }
        ensures apart { StaysApart (D.state self.old.disk) (D.state self.new.disk) }
        ensures keeps { D.keeps self.old.disk self.new.disk }
    {
        if self.stopped.is_some() {
            return Err(NodeFault::Broken);
        }
        let before = self.store.status();
        match followable(alloc, &before, self.store.path(), child) {
            Ok(()) => {}
            Err(fault) => return Err(fault),
        }
        match self
            .store
            .switch(alloc, child, before.whole, before.prev, Role::Standby)
        {
            Ok(()) => {
                let after = self.store.status();
                self.walker = Walker::new(after.whole, after.prev, after.ident);
                Ok(())
            }
            Err(fault) => Err(stop(&mut self.stopped, before, fault)),
        }
    }
}

/// Refuses a history that a log does not go over to which tells this and has this path.
fn followable(
    alloc: Global,
    status: &StoreStatus,
    path: &History,
    child: &History,
) -> Result<(), NodeFault>
    ensures refused { IfErr result (λ e. (n : LogState) → status.now ≡ status_of_log n → path.now ≡ path_of n → IsUnfollowed n child.now e) }
    ensures can { OnOk result ((n : LogState) → status.now ≡ status_of_log n → path.now ≡ path_of n → CanFollow n child.now) }
{
    if !is_standby(status.role) {
        return Err(NodeFault::NotStandby);
    }
    let switch = match left_at(alloc, path, child) {
        Ok(switch) => switch,
        Err(fault) => return Err(fault),
    };
    if switch < status.whole {
        return Err(NodeFault::ForkedBefore {
            whole: status.whole,
            switch,
        });
    }
    if status.whole < switch {
        return Err(NodeFault::NotThereYet {
            flushed: status.flushed,
            switch,
        });
    }
    match history_text(alloc, child) {
        Ok(_) => Ok(()),
        Err(HistoryFault::TooLong { have }) => Err(NodeFault::HistoryFull { have }),
        Err(_) => Err(NodeFault::Memory),
    }
}

/// Where a child of the path leaves it. Takes memory for the parents that differ.
fn left_at(alloc: Global, path: &History, child: &History) -> Result<Lsn, NodeFault>
    ensures leaves { IfOk result (λ switch. Leaves path.now child.now × (switch ≡ last_switch child.now.parents)) }
    ensures refused { IfErr result (IsNoChild path.now child.now) }
{
    let Some(switch) = left_last(path, child) else {
        return Err(NodeFault::NotChild { own: path.own() });
    };
    match path.relation_to(child) {
        Relation::Apart { at } => Err(differing(alloc, path, child, at)),
        _ => Ok(switch),
    }
}

/// Where the child's last parent was left, if that is the path's own timeline and the child has one parent more.
fn left_last(path: &History, child: &History) -> Option<Lsn>
    ensures { MatchOption result
        (¬ IsOneMore path.now child.now)
        (λ switch. IsOneMore path.now child.now × (switch ≡ last_switch child.now.parents)) }
{
    let parents = child.parents().as_slice();
    if parents.len() != path.parents().as_slice().len() + 1 {
        return None;
    }
    match parents.last() {
        Some(last) if last.tli == path.own() => Some(last.switch),
        _ => None,
    }
}

/// Tells the parents at this index, at which the histories differ first. Takes memory for their reasons.
fn differing(alloc: Global, path: &History, child: &History, at: u64) -> NodeFault
    requires one_more { IsOneMore path.now child.now }
    requires differ { DifferAt path.now child.now at }
    requires within { at < length path.now.parents }
    ensures { IsNoChild path.now child.now result }
{
    let place = at as usize;
    let own = match path.parents().as_slice()[place].copy(alloc) {
        Ok(own) => own,
        Err(_) => return NodeFault::Memory,
    };
    match child.parents().as_slice()[place].copy(alloc) {
        Ok(theirs) => NodeFault::ParentDiffers { at, own, theirs },
        Err(_) => NodeFault::Memory,
    }
}
