/// What takes events one at a time, and answers each. It can be a state machine of any kind: `steps` says which
/// reply and which new state an event may have in a state, and callers know the machine by this relation alone.
/// `awaited` is what of a state threads wait for, and a quiet event, as a look or a question, leaves it as it is.
/// Where nobody waits for anything, `Awaited` is `Unit {0}`; where no event is quiet, `quiet` is `λ _. false`.
pub trait Machine {
    ghost use Rattle.std.specs.Prelude.{◌≡◌, Bool, true};

    type Event;

    type Reply;

    ghost steps: { Self → Self.Event → Self.Reply → Self → Type 0 };

    ghost Awaited: { Type 0 };

    ghost awaited: { Self → Awaited };

    ghost quiet: { Self.Event → Bool };

    /// Whether the event is quiet, whatever the state: then who waits for a change sleeps on.
    fn is_quiet(event: &Self::Event) -> bool
        ensures { result ≡ quiet event.now };

    fn act(&mut self, event: Self::Event) -> Self::Reply
        ensures { steps self.old event result self.new };

    // What a quiet event leaves.
    ghost stays: { (x : Self) (event : Self.Event) (reply : Self.Reply) (y : Self) → quiet event ≡ true → steps x event reply y → awaited y ≡ awaited x };
}

/// An event as it stands in the history, under the number of the pass that made it. The history exists in proofs
/// alone: no value of this type is made.
pub struct Entry<E, R> {
    pub by: u64,
    pub event: E,
    pub reply: R,
}
