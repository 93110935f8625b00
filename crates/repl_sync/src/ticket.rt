//! What events make of tickets.
ghost use Rattle.std.specs.Prelude.{◌≡◌, ◌≢◌, ◌<◌, MatchOption, All, length, slice_index_or, map, ℕ, IsTrue, ◌↔◌, Some};
ghost use Rattle.repl_sync.specs.declared.holding.Holding.{Holding};
ghost use Rattle.repl_sync.specs.State.{Prepared, fate_of};
ghost use Rattle.repl_sync.specs.Sync.{Looks, cancels_ticket};
ghost use Rattle.repl_sync.specs.Inside.{Begins, Cancels, CancelledOne, IsKept, begun, cancelled_progress, certificate_of, progress_of, state_of, ticket_of, with_tickets};

use crate::certificate::{Certificate, CountedList, Look};
use crate::holding::{Holding, Progress};
use crate::parts::Parts;
use crate::release::release;
use repl_lsn::Lsn;
use repl_names::Mode;

/// The place of the ticket, where it is there.
pub(crate) fn place_of_ticket(holdings: &[Holding], ticket: u64) -> Option<usize>
    ensures { MatchOption result (All (λ h. h.ticket ≢ ticket) holdings.now)
        (λ place. (place < length holdings.now) × ((d : Holding) → (slice_index_or holdings.now place d).ticket ≡ ticket)) }
{
    holdings.iter().position(|holding| holding.ticket == ticket)
}

/// Whether the ticket is prepared and does not wait yet.
pub(crate) fn is_prepared(parts: &Parts, ticket: u64) -> bool
    requires { IsKept parts.now }
    ensures { IsTrue result ↔ (fate_of (state_of parts.now).tickets ticket ≡ Some Prepared) }
{
    match place_of_ticket(&parts.holdings, ticket) {
        Some(place) => matches!(parts.holdings[place].progress, Progress::Prepared),
        None => false,
    }
}

/// Makes a prepared ticket wait for this, or makes it cancelled, and releases the waits that are due. False where the
/// ticket is not prepared. Takes no memory.
pub(crate) fn begin(parts: &mut Parts, ticket: u64, wait: Option<(u64, Mode)>) -> bool
    requires { IsKept parts.old }
    ensures kept { IsKept parts.new }
    ensures begun { Begins parts.old ticket (begun wait) result parts.new }
{
    let Some(place) = place_of_ticket(&parts.holdings, ticket) else {
        return false;
    };
    let Progress::Prepared = parts.holdings[place].progress else {
        return false;
    };
    parts.holdings[place].progress = progress_of(wait);
    release(parts);
    true
}

/// How far a ticket is that begins to wait for this, or is cancelled.
fn progress_of(wait: Option<(u64, Mode)>) -> Progress
    ensures { result ≡ progress_of wait }
{
    match wait {
        Some((end, mode)) => Progress::Waiting(end, mode),
        None => Progress::Cancelled,
    }
}

/// What has become of the ticket. One that is released or cancelled is answered once. Takes no memory.
pub(crate) fn look(parts: &mut Parts, ticket: u64) -> Look
    requires { IsKept parts.old }
    ensures kept { IsKept parts.new }
    ensures answered { Looks (state_of parts.old) ticket result (state_of parts.new) }
{
    let Some(place) = place_of_ticket(&parts.holdings, ticket) else {
        return Look::Unknown;
    };
    match parts.holdings[place].progress {
        Progress::Prepared => Look::Unknown,
        Progress::Waiting(_, _) => Look::NotYet,
        Progress::Released(end, mode) => {
            let holding = parts.holdings.remove(place);
            Look::Released(certificate(holding, end, mode))
        }
        Progress::Cancelled => {
            let _gone = parts.holdings.remove(place);
            Look::Cancelled
        }
    }
}

/// The certificate of a ticket that was released so.
fn certificate(holding: Holding, end: u64, mode: Mode) -> Certificate
    ensures { result ≡ certificate_of holding end mode }
{
    Certificate {
        mode,
        end: Lsn(end),
        list: holding.list,
        counted: CountedList::of(holding.counted),
    }
}

/// Cancels the ticket's wait. False where the ticket is not there. Takes no memory.
pub(crate) fn cancel(parts: &mut Parts, ticket: u64) -> bool
    requires { IsKept parts.old }
    ensures kept { IsKept parts.new }
    ensures cancelled { Cancels parts.old ticket result parts.new }
{
    let Some(place) = place_of_ticket(&parts.holdings, ticket) else {
        return false;
    };
    if let Progress::Prepared = parts.holdings[place].progress {
        let _gone = parts.holdings.remove(place);
    } else {
        cancel_one(&mut parts.holdings[place]);
    }
    true
}

/// Cancels all waits. Takes no memory.
pub(crate) fn cancel_all(parts: &mut Parts)
    requires { IsKept parts.old }
    ensures kept { IsKept parts.new }
    ensures cancelled { state_of parts.new ≡ with_tickets parts.old (map cancels_ticket (map ticket_of parts.old.holdings.items)) }
{
    cancel_each(&mut parts.holdings);
}

/// Cancels the wait of each.
fn cancel_each(holdings: &mut [Holding])
    ensures { (k : ℕ) (d : Holding) → k < length holdings.old → CancelledOne (slice_index_or holdings.old k d) (slice_index_or holdings.new k d) }
{
    for holding in holdings.iter_mut() {
        cancel_one(holding);
    }
}

/// Cancels the wait, if it is one.
fn cancel_one(holding: &mut Holding)
    ensures { CancelledOne holding.old holding.new }
{
    holding.progress = cancelled(holding.progress);
}

/// How far a ticket is that is cancelled.
fn cancelled(progress: Progress) -> Progress
    ensures { result ≡ cancelled_progress progress }
{
    match progress {
        Progress::Waiting(_, _) => Progress::Cancelled,
        Progress::Prepared => Progress::Prepared,
        Progress::Released(end, mode) => Progress::Released(end, mode),
        Progress::Cancelled => Progress::Cancelled,
    }
}
