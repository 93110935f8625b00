//! The control file of a store: written anew by each call that changes what the store is.
ghost use Rattle.std.specs.Prelude.{◌≡◌, ◌⊎◌, Some, Ok, Err, IfErr, OnOk};
ghost use Rattle.repl_control.specs.Control.{control_bytes};
ghost use Rattle.repl_disk.specs.Answers.{Caused, NeverMissing};
ghost use Rattle.repl_disk.specs.Crash.{LeavesOnly};
ghost use Rattle.repl_disk.specs.Folder.{Folder, IfTold, Became};
ghost use Rattle.repl_disk.specs.Replacing.{IsAfter, IsBeforeOrAfter, IsHalfDone, IsUntouched, replaced};
ghost use Rattle.repl_disk.specs.declared.disk.DiskError.TheVariants as DiskError;
ghost use Rattle.repl_store.specs.Apart.{StaysApart};
ghost use Rattle.repl_store.specs.Durable.{control_name, control_aside};

use repl_control::{Control, write_control};
use repl_disk::{Disk, DiskError, replace_by};

/// The name of the control's file.
pub(crate) const CONTROL: &str = "control";

/// The name under which a control is written first.
const CONTROL_ASIDE: &str = "control.tmp";

/// Puts the control onto the disk, in the place of the one that is there. Takes no memory but the disk's.
pub(crate) fn put_control<D: Disk>(disk: &mut D, control: &Control) -> Result<(), DiskError>
    ensures any_moment { IfTold (D.state disk.old).files (λ folder. LeavesOnly (D.state disk.old) (D.state disk.new)
        (IsBeforeOrAfter (D.state disk.old).may_leave control_name control_aside (control_bytes control.now))) }
    ensures durable { OnOk result (IfTold (D.state disk.old).files (λ folder. (image : Folder) → (D.state disk.new).may_leave image →
        IsAfter (D.state disk.old).may_leave control_name control_aside (control_bytes control.now) image)) }
    ensures files { OnOk result (Became (D.state disk.old).files (D.state disk.new).files (λ folder. replaced folder control_name control_aside (control_bytes control.now))) }
    ensures half_done { IfErr result (λ e. IsHalfDone (D.state disk.old).files (D.state disk.new).files control_name control_aside (control_bytes control.now)) }
    ensures no_memory { result ≡ Err DiskError.Memory → IfTold (D.state disk.old).files (λ folder.
        IsUntouched (D.state disk.old) (D.state disk.new) control_aside) }
    ensures caused { Caused result (D.state disk.old) (D.state disk.new) }
    ensures there { IfTold (D.state disk.old).files (λ folder. NeverMissing result) }
    ensures apart { StaysApart (D.state disk.old) (D.state disk.new) }
    ensures keeps { D.keeps disk.old disk.new }
{
    replace_by(disk, CONTROL, CONTROL_ASIDE, &write_control(control))
}
