ghost use Rattle.std.specs.Prelude.{◌≡◌, ℕ};
ghost use Rattle.repl_control.specs.Control.{IsControl, SpellsControl, control_bytes};

use crate::control::{CONTROL_SIZE, Control};
use crate::fields::Fields;

/// The control's one spelling. Takes no memory.
pub fn write_control(control: &Control) -> [u8; CONTROL_SIZE]
    ensures value { result ≡ control_bytes control.now }
    // A control that is right is read back.
    ensures spells { (size : ℕ) → IsControl size control.now → SpellsControl size result control.now }
{
    Fields::of(control).bytes()
}
