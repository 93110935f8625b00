ghost use Rattle.std.specs.Prelude.{◌≡◌, ◌↔◌, Option, Some, MatchOption, ◌≤◌, ◌<◌, ℕ, [], List, length, All, Contains, count_by};
ghost use Rattle.std.specs.List.{AllZip};
ghost use Rattle.repl_names.specs.declared.list.Method.TheVariants as Method;
ghost use Rattle.repl_names.specs.declared.quorum.Mode.{Mode};
ghost use Rattle.repl_names.specs.declared.quorum.Candidate.{Candidate};
ghost use Rattle.repl_names.specs.StandbyList.{Listing, IsListing, list_spelling};
ghost use Rattle.repl_names.specs.declared.setting.Setting.{Setting};
ghost use Rattle.repl_names.specs.Grammar.{SaysList};
ghost use Rattle.repl_names.specs.Setting.{SaysSetting, setting_word};
ghost use Rattle.repl_names.specs.Quorum.{Met, IsGreatest, IsReleased, Continue, Counted, Differ, Forward, NoneLags, candidates, counts, reaches, position};

/// What is printed is read back as the same list.
pub fn printed_is_read()
    ensures { (list : Listing) → IsListing list → SaysList (list_spelling list) list }
{}

/// A text says one list at most.
pub fn one_list()
    ensures { (text : List ℕ) (a b : Listing) → SaysList text a → SaysList text b → a ≡ b }
{}

/// A list that is met at a position is met at every earlier one.
pub fn met_below()
    ensures { (list : Listing) (sessions : List Candidate) (m : Mode) (earlier end : ℕ) → earlier ≤ end →
        Met list sessions m end → Met list sessions m earlier }
{}

/// A list that has names is met at a position exactly where `released` is that position or a later one.
pub fn released_decides()
    ensures { (list : Listing) (sessions : List Candidate) (m : Mode) (end : ℕ) (released : Option ℕ) → 0 < length list.names →
        IsReleased list sessions m released → (Met list sessions m end ↔ MatchOption released ⊥ (λ (greatest : ℕ). end ≤ greatest)) }
{}

/// A standby that moves forward unmeets nothing.
pub fn met_forward()
    ensures { (list : Listing) (old new : List Candidate) (m : Mode) (end : ℕ) → AllZip Forward old new →
        All (λ (c : Candidate). 0 < c.flushed) old → Met list old m end → Met list new m end }
{}

/// What was met stays met where each candidate is still one and has no lesser position. With FIRST this is so exactly where
/// moreover each of the first candidates that was none before has the position: a standby of good priority that has said for
/// the first time what it flushed, and lags, unmeets the list.
pub fn met_stays()
    ensures any { (list : Listing) (old new : List Candidate) (m : Mode) (end : ℕ) → list.method ≡ Method.Any →
        Differ old → Continue (candidates old) (candidates new) → Met list old m end → Met list new m end }
    ensures first { (list : Listing) (old new : List Candidate) (m : Mode) (end : ℕ) → list.method ≡ Method.First → 0 < length list.names →
        Differ old → Continue (candidates old) (candidates new) → Met list old m end →
        (Met list new m end ↔ NoneLags list.number (candidates old) (candidates new) m end) }
{}

/// What is released does not fall on the same premises.
pub fn released_stays()
    ensures { (list : Listing) (old new : List Candidate) (m : Mode) (end : ℕ) (released : Option ℕ) → 0 < length list.names →
        Differ old → Continue (candidates old) (candidates new) →
        (list.method ≡ Method.First → NoneLags list.number (candidates old) (candidates new) m end) →
        IsReleased list old m (Some end) → IsReleased list new m released → MatchOption released ⊥ (λ (later : ℕ). end ≤ later) }
{}

/// The list without names is met by nobody's report.
pub fn met_without_names()
    ensures { (list : Listing) (m : Mode) (end : ℕ) → list.names ≡ [] → Met list [] m end }
{}

/// The greatest position at which `ANY n` is met is reached by n candidates at least, and no later one is.
pub fn any_reached()
    ensures { (list : Listing) (sessions : List Candidate) (m : Mode) (end : ℕ) → list.method ≡ Method.Any →
        0 < length list.names → IsGreatest list sessions m end →
        (list.number ≤ count_by (reaches m end) (candidates sessions)) ×
        ((later : ℕ) → end < later → count_by (reaches m later) (candidates sessions) < list.number) }
{}

/// Where a list is met, those that count are as many as it demands, each is a candidate, and each has the
/// position.
pub fn counted_reach()
    ensures { (list : Listing) (sessions counted : List Candidate) (m : Mode) (end : ℕ) → IsListing list →
        Differ sessions → Met list sessions m end → Counted list sessions m end counted →
        (length counted ≡ list.number) × Differ counted × All (λ (c : Candidate). Contains (candidates sessions) c × (end ≤ position m c)) counted }
{}

/// Of different sessions there is exactly one list of those by which a list is met.
pub fn one_counted()
    ensures one { (list : Listing) (sessions a b : List Candidate) (m : Mode) (end : ℕ) → Counted list sessions m end a → Counted list sessions m end b → a ≡ b }
    ensures some { (list : Listing) (sessions : List Candidate) (m : Mode) (end : ℕ) → Differ sessions → (counted : List Candidate) × Counted list sessions m end counted }
{}

/// A setting's word is that of no other, and is read back.
pub fn one_setting()
    ensures one { (text : List ℕ) (a b : Setting) → SaysSetting text a → SaysSetting text b → a ≡ b }
    ensures read { (v : Setting) → SaysSetting (setting_word v) v }
{}
