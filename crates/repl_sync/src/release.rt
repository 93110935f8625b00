//! Which waits are released.
ghost use Rattle.std.specs.Prelude.{◌≡◌, ◌≤◌, length, All, slice_index_or, ℕ, ◌<◌};
ghost use Rattle.repl_names.specs.StandbyList.{IsListing};
ghost use Rattle.repl_names.specs.declared.quorum.Mode.{Mode};
ghost use Rattle.repl_sync.specs.declared.holding.Holding.{Holding};
ghost use Rattle.repl_sync.specs.Sync.{Releases};
ghost use Rattle.repl_sync.specs.Inside.{IsReady, IsKept, state_of, IsReach, reach_in, HasRoom, IsOrder, IsDueBy, ReleasesOne};

use crate::filling::fill;
use crate::holding::{Holding, Progress};
use crate::order::put_in_order;
use crate::parts::Parts;
use crate::reach::Reach;
use crate::session::Entry;
use repl_names::{Candidate, Mode, StandbyList};

/// Releases each wait at whose end the list in force is met. Takes no memory.
pub(crate) fn release(parts: &mut Parts)
    requires { IsReady parts.old }
    ensures kept { IsKept parts.new }
    ensures released { Releases (state_of parts.old) (state_of parts.new) }
{
    put_in_order(&mut parts.order, &parts.entries);
    release_each(
        &mut parts.holdings,
        &parts.list,
        &parts.entries,
        &parts.order,
    );
}

/// Releases each wait that is due, by the candidates in order.
fn release_each(
    holdings: &mut [Holding],
    list: &StandbyList,
    entries: &[Entry],
    order: &[Candidate],
)
    requires listing { IsListing list.now }
    requires order { IsOrder list.now entries.now order.now }
    requires rooms { All (HasRoom list.now entries.now) holdings.old }
    ensures { (k : ℕ) (d : Holding) → k < length holdings.old →
        ReleasesOne list.now entries.now (slice_index_or holdings.old k d) (slice_index_or holdings.new k d) }
{
    let reach = Reach::of(list, order);
    for holding in holdings.iter_mut() {
        release_one(holding, &reach, list, entries, order);
    }
}

/// Releases the wait if it is due.
fn release_one(
    holding: &mut Holding,
    reach: &Reach,
    list: &StandbyList,
    entries: &[Entry],
    order: &[Candidate],
)
    requires listing { IsListing list.now }
    requires order { IsOrder list.now entries.now order.now }
    requires reach { (m : Mode) → IsReach list.now order.now m (reach_in reach.now m) }
    requires room { HasRoom list.now entries.now holding.old }
    ensures { ReleasesOne list.now entries.now holding.old holding.new }
{
    if let Some((end, mode)) = due(holding.progress, reach) {
        fill(
            &mut holding.counted,
            &mut holding.names,
            list,
            order,
            entries,
            mode,
            end,
        );
        holding.progress = Progress::Released(end, mode);
    }
}

/// The wait that is due, if it is one.
fn due(progress: Progress, reach: &Reach) -> Option<(u64, Mode)>
    ensures { IsDueBy reach.now progress result }
{
    match progress {
        Progress::Waiting(end, mode) => reach.is_met(mode, end).then_some((end, mode)),
        Progress::Prepared => None,
        Progress::Released(_, _) => None,
        Progress::Cancelled => None,
    }
}
