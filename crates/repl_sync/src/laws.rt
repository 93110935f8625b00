ghost use Rattle.std.specs.Prelude.{◌≡◌, ◌≢◌, ◌<◌, ◌≤◌, ℕ, List, [], map, length, All, Some, None};
ghost use Rattle.repl_names.specs.StandbyList.{Listing, IsListing};
ghost use Rattle.repl_names.specs.declared.quorum.Mode.{Mode};
ghost use Rattle.repl_names.specs.Quorum.{Met, Differ};
ghost use Rattle.repl_sync.specs.declared.certificate.Certificate.{Certificate};
ghost use Rattle.repl_sync.specs.declared.certificate.Look.TheVariants as look;
ghost use Rattle.repl_sync.specs.State.{Session, State, Released, fate_of, standbys, standing};
ghost use Rattle.repl_sync.specs.Sync.{Event, Reply, SyncStep, Releases, IsCertificate, IsWaiting, IsSound, ToLook, NewTimeline, Prepare, Given, Looked, Done};

/// A certificate tells of as many sessions as the list demands. Each is a candidate, has the position, and is told of by
/// its number and name.
pub fn certificate_is_sound()
    ensures { (list : Listing) (sessions : List Session) (m : Mode) (end : ℕ) (c : Certificate) → IsListing list →
        Differ (map (standing list) sessions) → Met list (standbys list sessions) m end → IsCertificate list sessions m end c →
        (length c.counted ≡ list.number) × All (IsSound list sessions m end) c.counted }
{}

/// A ticket that is released stays so, with its certificate, until it is looked at.
pub fn released_stays()
    ensures { (old new : State) (event : Event) (reply : Reply) (t : ℕ) (c : Certificate) → SyncStep old event reply new →
        event ≢ ToLook t → fate_of old.tickets t ≡ Some (Released c) → fate_of new.tickets t ≡ Some (Released c) }
{}

/// While the list has no names, nobody waits after an event.
pub fn none_waits_without_names()
    ensures { (old new : State) → Releases old new → old.list.names ≡ [] → All (λ t. ¬ IsWaiting (Some t.fate)) new.tickets }
{}

/// With a new timeline no session streams, so that no report from before counts.
pub fn new_timeline_forgets()
    ensures { (old new : State) → SyncStep old NewTimeline Done new → standbys new.list new.sessions ≡ [] }
{}

/// The last ticket given never falls, and a ticket that is given is one above it: no ticket is given twice.
pub fn tickets_differ()
    ensures rises { (old new : State) (event : Event) (reply : Reply) → SyncStep old event reply new → old.last ≤ new.last }
    ensures given { (old new : State) (t : ℕ) → SyncStep old Prepare (Given t) new → (old.last < t) × (new.last ≡ t) }
{}

/// A ticket is answered once: who was told that the wait is over has handed the ticket back.
pub fn answered_once()
    ensures released { (old new : State) (t : ℕ) (c : Certificate) → SyncStep old (ToLook t) (Looked (look.Released c)) new → fate_of new.tickets t ≡ None }
    ensures cancelled { (old new : State) (t : ℕ) → SyncStep old (ToLook t) (Looked look.Cancelled) new → fate_of new.tickets t ≡ None }
{}
