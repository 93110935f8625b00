//! What is told where a call of a node was refused.
ghost use Rattle.std.specs.Prelude.{◌≡◌};
ghost use Rattle.repl_admin.specs.Damages.{IsToldOfNode};

use crate::damage::{control_damage, history_damage, slots_damage};
use crate::tended::Tended;
use repl_exit::DamageReason;
use repl_node::NodeFault;
use std::alloc::Global;

/// How a command ends where a call of a node was refused so. Takes memory for the name of a file. A mount answers none of the
/// last faults but that of the disk, and `Damaged`, whose file is named by the path; a making none but that of the disk.
pub(crate) fn end_of_node(alloc: Global, fault: NodeFault) -> Tended
    ensures { IsToldOfNode fault result }
{
    match fault {
        NodeFault::Missing(name) => Tended::Damaged {
            name,
            place: 0,
            why: DamageReason::Missing,
        },
        NodeFault::BadControl(place) => control_damage(alloc, place),
        NodeFault::BadSlots(place) => slots_damage(alloc, place),
        NodeFault::BadHistory { tli, fault } => history_damage(alloc, tli, fault),
        NodeFault::ShortFile { name, have, .. } => Tended::Damaged {
            name,
            place: have,
            why: DamageReason::Short,
        },
        NodeFault::Exists => Tended::Exists,
        NodeFault::Memory => Tended::Memory,
        NodeFault::DiskFault
        | NodeFault::Damaged { .. }
        | NodeFault::Broken
        | NodeFault::SourceFault
        | NodeFault::NotPrimary
        | NodeFault::NotStandby
        | NodeFault::TooLong { .. }
        | NodeFault::LogFull
        | NodeFault::WrongTimeline { .. }
        | NodeFault::NotAtEnd { .. }
        | NodeFault::BadRecord { .. }
        | NodeFault::NotInHistory(_)
        | NodeFault::AfterSwitch { .. }
        | NodeFault::Ahead { .. }
        | NodeFault::Removed { .. }
        | NodeFault::NotChild { .. }
        | NodeFault::ParentDiffers { .. }
        | NodeFault::ForkedBefore { .. }
        | NodeFault::NotThereYet { .. }
        | NodeFault::HistoryFull { .. }
        | NodeFault::NoNumberLeft
        | NodeFault::NoHistory(_) => Tended::DiskFault,
    }
}
