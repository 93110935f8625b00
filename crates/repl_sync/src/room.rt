//! The room that certificates need, which is taken before waits are released.
ghost use Rattle.std.specs.Prelude.{◌≡◌, ◌≤◌, ◌<◌, ℕ, length, All, IfOk, OnOk, vec_len, vec_capacity, slice_index_or};
ghost use Rattle.repl_sync.specs.declared.holding.Holding.{Holding};
ghost use Rattle.repl_sync.specs.declared.holding.Progress.TheVariants as progress;
ghost use Rattle.repl_sync.specs.Inside.{HasPlaces, HasRoom, IsBlank, Refitted, is_live};

use crate::holding::{Holding, Progress};
use crate::session::Entry;
use repl_names::StandbyList;
use std::alloc::{AllocError, Global};

/// How many bytes the longest name has, at least.
pub(crate) fn longest_name(entries: &[Entry]) -> usize
    ensures { All (λ e. length e.name ≤ result) entries.now }
{
    entries
        .iter()
        .map(|entry| entry.name.len())
        .max()
        .unwrap_or(0)
}

/// A ticket that is prepared just now. Takes memory for its certificate.
pub(crate) fn new_holding(
    alloc: Global,
    ticket: u64,
    list: &StandbyList,
    entries: &[Entry],
) -> Result<Holding, AllocError>
    ensures ticket { IfOk result (λ h. h.ticket ≡ ticket) }
    ensures prepared { IfOk result (λ h. h.progress ≡ progress.Prepared) }
    ensures room { IfOk result (λ h. HasRoom list.now entries.now h) }
{
    let count = (list.number() as usize).min(entries.len());
    let list = list.copy(alloc)?;
    let counted = Vec::with_capacity(alloc, count)?;
    let names = blank_names(alloc, count, longest_name(entries))?;
    Ok(Holding {
        ticket,
        progress: Progress::Prepared,
        list,
        counted,
        names,
    })
}

/// Room for so many names of so many bytes.
fn blank_names(alloc: Global, count: usize, longest: usize) -> Result<Vec<Vec<u8>>, AllocError>
    ensures count { IfOk result (λ v. vec_len v ≡ count) }
    ensures blank { IfOk result (λ v. All (λ b. IsBlank b × (longest ≤ vec_capacity b)) v.items) }
{
    let mut names = Vec::with_capacity(alloc, count)?;
    for _ in 0..count {
        names.push(Vec::with_capacity(alloc, longest)?)?;
    }
    Ok(names)
}

/// Makes room in each ticket that may be released yet, for so many sessions with names of so many bytes. What a
/// ticket has become stays as it was, for want of memory too.
pub(crate) fn make_rooms(
    alloc: Global,
    holdings: &mut [Holding],
    count: usize,
    longest: usize,
) -> Result<(), AllocError>
    ensures each { (k : ℕ) (d : Holding) → k < length holdings.old →
        Refitted count longest (slice_index_or holdings.old k d) (slice_index_or holdings.new k d) }
    ensures all { OnOk result (All (HasPlaces count longest) holdings.new) }
{
    for holding in holdings.iter_mut() {
        make_room(alloc, holding, count, longest)?;
    }
    Ok(())
}

/// Makes room in the ticket, where it may be released yet.
fn make_room(
    alloc: Global,
    holding: &mut Holding,
    count: usize,
    longest: usize,
) -> Result<(), AllocError>
    ensures refitted { Refitted count longest holding.old holding.new }
    ensures room { OnOk result (HasPlaces count longest holding.new) }
{
    if is_live(holding.progress) {
        let counted = Vec::with_capacity(alloc, count)?;
        let names = blank_names(alloc, count, longest)?;
        holding.counted = counted;
        holding.names = names;
    }
    Ok(())
}

/// Whether the ticket may be released yet.
pub(crate) fn is_live(progress: Progress) -> bool
    ensures { result ≡ is_live progress }
{
    match progress {
        Progress::Prepared => true,
        Progress::Waiting(_, _) => true,
        Progress::Released(_, _) => false,
        Progress::Cancelled => false,
    }
}
