ghost use Rattle.std.specs.Prelude.{◌≡◌, ℕ, true, All, Some, List, slice_get};
ghost use mathlib.Core.List.{IsPrefix};
ghost use Rattle.repl_turn.specs.declared.machine.Entry.{Entry};
ghost use Rattle.repl_turn.specs.History.{TurnId, Legal, Replays, StepAt};

use crate::machine::Machine;

/// A legal history splits at each of its entries: at the state before it, the step, and the state after it.
pub fn each_entry_is_a_step<M: Machine>()
    ensures { (turn : TurnId M) (h : List (Entry M.Event M.Reply)) (at : ℕ) (e : Entry M.Event M.Reply) → Legal M.steps turn h → slice_get h at ≡ Some e →
        (x : M) × (turn.opening ≡ Some x) × (y : M) × StepAt M.steps x h y at e }
{}

/// A beginning of a legal history is legal.
pub fn beginnings_are_legal<M: Machine>()
    ensures { (turn : TurnId M) (g h : List (Entry M.Event M.Reply)) → IsPrefix g h → Legal M.steps turn h → Legal M.steps turn g }
{}

/// Quiet events, however many, leave what threads wait for: who looked and sleeps through them missed nothing.
pub fn quiet_events_change_nothing<M: Machine>()
    ensures { (x : M) (h : List (Entry M.Event M.Reply)) (y : M) → All (λ e. M.quiet e.event ≡ true) h → Replays M.steps x h y → M.awaited y ≡ M.awaited x }
{}
