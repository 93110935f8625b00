ghost use Rattle.std.specs.Prelude.{◌≡◌, ◌⊎◌, ◌^◌, ◌<◌, ℕ, List, All};
ghost use Rattle.repl_control.specs.declared.control.Control.{Control};
ghost use Rattle.repl_control.specs.Control.{IsControl, FitsFields, SpellsControl, IsControlFault, control_bytes};

/// What is written of a control that is right is read back.
pub fn written_spells()
    ensures { (size : ℕ) (control : Control) → FitsFields control → IsControl size control → SpellsControl size (control_bytes control) control }
{}

/// Bytes spell one control at most, whatever the size of segments.
pub fn one_control()
    ensures { (size other : ℕ) (bytes : List ℕ) (a b : Control) → SpellsControl size bytes a → SpellsControl other bytes b → a ≡ b }
{}

/// A control has one spelling.
pub fn one_spelling()
    ensures { (size : ℕ) (a b : List ℕ) (control : Control) → SpellsControl size a control → SpellsControl size b control → a ≡ b }
{}

/// Bytes have one fault at most, and none where they spell a control.
pub fn one_control_fault()
    ensures one { (size : ℕ) (bytes : List ℕ) (a b : ℕ) → IsControlFault size bytes a → IsControlFault size bytes b → a ≡ b }
    ensures none { (size : ℕ) (bytes : List ℕ) (control : Control) (place : ℕ) → SpellsControl size bytes control → ¬ IsControlFault size bytes place }
{}

/// Bytes spell a control or have a fault.
pub fn spelled_or_wrong()
    ensures { (size : ℕ) (bytes : List ℕ) → All (λ byte. byte < 2 ^ 8) bytes → ((control : Control) × SpellsControl size bytes control) ⊎ ((place : ℕ) × IsControlFault size bytes place) }
{}
