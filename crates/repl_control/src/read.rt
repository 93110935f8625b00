ghost use Rattle.std.specs.Prelude.{◌≡◌, ◌≢◌, ℕ, ◌<◌, false, Ok, Err, IfOk, IfErr, OnOk, MatchResult, IsTrue};
ghost use Rattle.repl_control.specs.declared.control.Control.{Control};
ghost use Rattle.repl_control.specs.Control.{IsControl, SpellsControl, IsFirstWrong, IsControlFault, fields_of, role_number};

use crate::control::{CONTROL_SIZE, Control, Role};
use crate::fault::ControlFault;
use crate::fields::{Fields, MARK, VERSION};
use repl_lsn::{SegSize, Tli};

/// The control that the bytes spell, in a store with so large segments. Takes no memory.
///
/// The length is judged first: where it is not 56, the fault is at the lesser of it and 56. Then the fields are judged
/// in the order of the bytes, and the fault is at the first byte of the first that is wrong.
pub fn read_control(bytes: &[u8], size: SegSize) -> Result<Control, ControlFault>
    // What is read is spelled so.
    ensures read { IfOk result (λ control. SpellsControl size bytes.now control) }
    // What is spelled so is read.
    ensures only { (control : Control) → SpellsControl size bytes.now control → result ≡ Ok control }
    // Each fault has its cause, and is told where it has.
    ensures refused { IfErr result (λ fault. IsControlFault size bytes.now fault.place) }
    ensures exact { (place : ℕ) → IsControlFault size bytes.now place → result ≡ Err (record { place = place }) }
{
    if bytes.len() != CONTROL_SIZE {
        let place = bytes.len().min(CONTROL_SIZE) as u64;
        return Err(ControlFault { place });
    }
    let control = control_of(&Fields::read(bytes))?;
    judge(&control, size)?;
    Ok(control)
}

/// The control of these numbers, whose positions are not judged.
fn control_of(fields: &Fields) -> Result<Control, ControlFault>
    ensures read { IfOk result (λ control. fields_of control ≡ fields.now) }
    ensures timeline { IfOk result (λ control. 0 < control.tli) }
    ensures refused { IfErr result (λ fault. (size : ℕ) → IsFirstWrong size fields.now fault.place) }
{
    expect(fields.mark == MARK, 0)?;
    expect(fields.version == VERSION, 4)?;
    let role = role_of(fields.role)?;
    expect(fields.zero == 0, 7)?;
    let tli = timeline_of(fields.tli)?;
    expect(fields.padding == 0, 22)?;
    Ok(Control {
        role,
        sysid: fields.sysid,
        tli,
        magic: fields.magic,
        flushed: fields.flushed,
        whole: fields.whole,
        floor: fields.floor,
        prev: fields.prev,
    })
}

/// Judges the positions of a control.
fn judge(control: &Control, size: SegSize) -> Result<(), ControlFault>
    requires { 0 < control.now.tli }
    ensures right { OnOk result (IsControl size control.now) }
    ensures refused { IfErr result (λ fault. IsFirstWrong size (fields_of control.now) fault.place) }
{
    expect(control.has_flushed(size), 24)?;
    expect(control.has_whole(size), 32)?;
    expect(control.has_floor(size), 40)?;
    expect(control.has_prev(), 48)
}

/// The role that the number spells.
fn role_of(number: u8) -> Result<Role, ControlFault>
    ensures { MatchResult result (λ role. number ≡ role_number role) (λ fault. (number ≢ 1) × (number ≢ 2) × (fault.place ≡ 6)) }
{
    match number {
        1 => Ok(Role::Primary),
        2 => Ok(Role::Standby),
        _ => Err(ControlFault { place: 6 }),
    }
}

/// The timeline with this number.
fn timeline_of(number: u32) -> Result<Tli, ControlFault>
    ensures { MatchResult result (λ tli. (0 < number) × (number ≡ tli)) (λ fault. (number ≡ 0) × (fault.place ≡ 16)) }
{
    Tli::new(number).ok_or(ControlFault { place: 16 })
}

/// A fault at this place, unless what stands there is right.
fn expect(right: bool, place: u64) -> Result<(), ControlFault>
    ensures { MatchResult result (λ _. IsTrue right) (λ fault. (right ≡ false) × (fault.place ≡ place)) }
{
    if right {
        Ok(())
    } else {
        Err(ControlFault { place })
    }
}
