//! Events that take memory: tickets that are given, and the room that later releases need.
ghost use Rattle.std.specs.Prelude.{◌≡◌, ◌≢◌, ◌≤◌, ◌<◌, ◌+◌, ℕ, length, All, IfOk, OnOk, vec_len, vec_capacity, slice_index_or};
ghost use Rattle.repl_text.specs.Text.{IsText};
ghost use Rattle.repl_names.specs.StandbyList.{Listing};
ghost use Rattle.repl_sync.specs.declared.session.Entry.{Entry};
ghost use Rattle.repl_sync.specs.declared.holding.Holding.{Holding};
ghost use Rattle.repl_sync.specs.Inside.{ConnectsOne, HasPlaces, IsKept, Prepares, RankedOne, RelistedOne, RenamesTo, SameState, countable, entry_of};

use crate::fault::SyncFault;
use crate::holding::Holding;
use crate::parts::Parts;
use crate::release::release;
use crate::room::{is_live, longest_name, make_rooms, new_holding};
use crate::session::{Entry, place_of};
use repl_lsn::Lsn;
use repl_names::{Candidate, StandbyList, priority};
use repl_text::Text;
use std::alloc::{AllocError, Global};

/// Gives the ticket that is one above the last, with the room for its certificate.
pub(crate) fn prepare(alloc: Global, parts: &mut Parts) -> Result<u64, SyncFault>
    requires { IsKept parts.old }
    ensures kept { IsKept parts.new }
    ensures prepared { Prepares parts.old result parts.new }
{
    if parts.last == u64::MAX {
        return Err(SyncFault::NoTicketLeft);
    }
    let ticket = parts.last + 1;
    let holding = new_holding(alloc, ticket, &parts.list, &parts.entries)?;
    parts.holdings.push(holding)?;
    parts.last = ticket;
    Ok(ticket)
}

/// Adds a session, after the room that its candidacy needs was taken.
pub(crate) fn connect(
    alloc: Global,
    parts: &mut Parts,
    session: u64,
    name: &[u8],
) -> Result<(), SyncFault>
    requires kept { IsKept parts.old }
    requires text { IsText name.now }
    ensures kept { IsKept parts.new }
    ensures connected { ConnectsOne parts.old session name.now result parts.new }
{
    if place_of(&parts.entries, session).is_some() {
        return Err(SyncFault::Known);
    }
    let name = Text::copied(alloc, name)?;
    let longest = longest_name(&parts.entries).max(name.len());
    let count = (parts.list.number() as usize).min(parts.entries.len() + 1);
    reserve(alloc, parts, count, longest)?;
    let entry = new_entry(session, name, &parts.list);
    parts.entries.push(entry)?;
    release(parts);
    Ok(())
}

/// A session that was connected just now.
fn new_entry(session: u64, name: Text, list: &StandbyList) -> Entry
    ensures { result ≡ entry_of session name list.now }
{
    let priority = priority(list, name.as_slice());
    Entry {
        candidate: Candidate {
            session,
            priority,
            written: Lsn(0),
            flushed: Lsn(0),
            applied: Lsn(0),
        },
        name,
        streaming: false,
        feedback: None,
    }
}

/// Takes the room for one candidate more, and for certificates of so many sessions with names of so many bytes.
/// What it stands for stays as it was, for want of memory too.
fn reserve(alloc: Global, parts: &mut Parts, count: usize, longest: usize) -> Result<(), AllocError>
    requires kept { IsKept parts.old }
    requires count { countable parts.old.list parts.old.entries.items ≤ count }
    requires longest { All (λ e. length e.name ≤ longest) parts.old.entries.items }
    ensures kept { IsKept parts.new }
    ensures same { SameState parts.old parts.new }
    ensures room { OnOk result (length parts.old.entries.items + 1 ≤ vec_capacity parts.new.order) }
    ensures places { OnOk result (All (HasPlaces count longest) parts.new.holdings.items) }
{
    parts.order.clear();
    parts.order.reserve(parts.entries.len() + 1)?;
    make_rooms(alloc, &mut parts.holdings, count, longest)
}

/// Puts another list in force, after the room for it was taken, and releases the waits that are due by it.
pub(crate) fn rename(alloc: Global, parts: &mut Parts, list: &StandbyList) -> Result<(), AllocError>
    requires { IsKept parts.old }
    ensures kept { IsKept parts.new }
    ensures renamed { RenamesTo parts.old list.now result parts.new }
{
    let own = list.copy(alloc)?;
    let copies = copies_of(alloc, list, parts.holdings.len())?;
    let number = parts.list.number().max(list.number());
    let count = (number as usize).min(parts.entries.len());
    let longest = longest_name(&parts.entries);
    reserve(alloc, parts, count, longest)?;
    parts.list = own;
    rank_each(&mut parts.entries, list);
    relist_each(&mut parts.holdings, copies);
    release(parts);
    Ok(())
}

/// So many copies of the list.
fn copies_of(
    alloc: Global,
    list: &StandbyList,
    count: usize,
) -> Result<Vec<StandbyList>, AllocError>
    ensures count { IfOk result (λ v. vec_len v ≡ count) }
    ensures same { IfOk result (λ v. All (λ l. l ≡ list.now) v.items) }
{
    let mut copies = Vec::with_capacity(alloc, count)?;
    for _ in 0..count {
        copies.push(list.copy(alloc)?)?;
    }
    Ok(copies)
}

/// Finds each session's priority on the list.
fn rank_each(entries: &mut [Entry], list: &StandbyList)
    ensures { (k : ℕ) (d : Entry) → k < length entries.old → RankedOne list.now (slice_index_or entries.old k d) (slice_index_or entries.new k d) }
{
    for entry in entries.iter_mut() {
        rank(entry, list);
    }
}

/// Finds the session's priority on the list.
fn rank(entry: &mut Entry, list: &StandbyList)
    ensures { RankedOne list.now entry.old entry.new }
{
    entry.candidate.priority = priority(list, entry.name.as_slice());
}

/// Gives each ticket that may be released yet a copy of the list.
fn relist_each(holdings: &mut [Holding], mut copies: Vec<StandbyList>)
    requires count { vec_len copies ≡ length holdings.old }
    ensures { (list : Listing) → All (λ l. l ≡ list) copies.items → (k : ℕ) (d : Holding) → k < length holdings.old →
        RelistedOne list (slice_index_or holdings.old k d) (slice_index_or holdings.new k d) }
{
    for holding in holdings.iter_mut() {
        relist(holding, copies.take_last());
    }
}

/// Gives the ticket this list, where it may be released yet.
fn relist(holding: &mut Holding, list: StandbyList)
    ensures { RelistedOne list holding.old holding.new }
{
    if is_live(holding.progress) {
        holding.list = list;
    }
}
