//! The control of the copy.
ghost use Rattle.std.specs.Prelude.{◌≡◌, OnOk, IfErr};
ghost use Rattle.repl_clone.specs.Causes.{IsDiskFailure, IsOfDisk};
ghost use Rattle.repl_clone.specs.Copied.{standby_control};
ghost use Rattle.repl_clone.specs.Copying.{ChangesOnly, OfControl};
ghost use Rattle.repl_control.specs.Control.{control_bytes};
ghost use Rattle.repl_disk.specs.Crash.{LeavesOnly};
ghost use Rattle.repl_disk.specs.Folder.{Folder, IfTold};
ghost use Rattle.repl_disk.specs.Replacing.{IsAfter, IsBeforeOrAfter};
ghost use Rattle.repl_store.specs.Durable.{control_aside, control_name};
ghost use Rattle.repl_store.specs.Head.{Head, status_of};

use crate::fault::{CopyFault, fault_of};
use repl_control::{Control, Role, write_control};
use repl_disk::{Disk, replace_by};
use repl_store::StoreStatus;

/// The name of the control's file.
pub(crate) const CONTROL: &str = "control";

/// The name under which a control is written first.
const CONTROL_ASIDE: &str = "control.tmp";

/// The control of a standby that begins where the source stands.
pub(crate) fn standby_control(status: &StoreStatus) -> Control
    ensures { (head : Head) → status.now ≡ status_of head → result ≡ standby_control head.control }
{
    Control {
        role: Role::Standby,
        sysid: status.sysid,
        tli: status.tli,
        magic: status.ident.magic,
        flushed: status.flushed,
        whole: status.whole,
        floor: status.floor,
        prev: status.prev,
    }
}

/// Puts the control onto the disk.
pub(crate) fn put_control<D: Disk>(disk: &mut D, control: &Control) -> Result<(), CopyFault>
    ensures any_moment { IfTold (D.state disk.old).files (λ folder. LeavesOnly (D.state disk.old) (D.state disk.new)
        (IsBeforeOrAfter (D.state disk.old).may_leave control_name control_aside (control_bytes control.now))) }
    ensures durable { OnOk result (IfTold (D.state disk.old).files (λ folder. (image : Folder) → (D.state disk.new).may_leave image →
        IsAfter (D.state disk.old).may_leave control_name control_aside (control_bytes control.now) image)) }
    ensures changes { IfTold (D.state disk.old).files (λ folder. ChangesOnly OfControl (D.state disk.old) (D.state disk.new) folder) }
    ensures of_disk { IsOfDisk result (D.state disk.old) (D.state disk.new) }
    ensures answers { IfErr result IsDiskFailure }
    ensures keeps { D.keeps disk.old disk.new }
{
    match replace_by(disk, CONTROL, CONTROL_ASIDE, &write_control(control)) {
        Ok(()) => Ok(()),
        Err(error) => Err(fault_of(error)),
    }
}
