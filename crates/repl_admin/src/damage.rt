//! What is told where the files of a disk stand for no store.
ghost use Rattle.std.specs.Prelude.{◌≡◌};
ghost use Rattle.repl_lsn.specs.Segment.{history_name};
ghost use Rattle.repl_slots.specs.Stored.{slots_name};
ghost use Rattle.repl_exit.specs.declared.damage.DamageReason.TheVariants as reason;
ghost use Rattle.repl_store.specs.Durable.{control_name};
ghost use Rattle.repl_text.specs.Text.{IsText};
ghost use Rattle.repl_admin.specs.Damages.{IsDamagedOr, IsToldOf};
ghost use Rattle.repl_admin.specs.Tending.{line_of};

use crate::tended::Tended;
use repl_exit::DamageReason;
use repl_lsn::{HistoryFault, Tli};
use repl_store::{StoreFault, history_file};
use repl_text::Text;
use std::alloc::Global;

/// How a command ends where a call of a store was refused so. Takes memory for the name of a file.
pub(crate) fn end_of_store(alloc: Global, fault: StoreFault) -> Tended
    ensures { IsToldOf fault result }
{
    match fault {
        StoreFault::Missing(name) => Tended::Damaged {
            name,
            place: 0,
            why: DamageReason::Missing,
        },
        StoreFault::BadControl(place) => control_damage(alloc, place),
        StoreFault::BadHistory { tli, fault } => history_damage(alloc, tli, fault),
        StoreFault::ShortFile { name, have, .. } => Tended::Damaged {
            name,
            place: have,
            why: DamageReason::Short,
        },
        StoreFault::Exists => Tended::Exists,
        StoreFault::Memory => Tended::Memory,
        StoreFault::Broken | StoreFault::DiskFault => Tended::DiskFault,
    }
}

/// The control is wrong at this byte.
pub(crate) fn control_damage(alloc: Global, place: u64) -> Tended
    ensures { IsDamagedOr control_name place reason.Control result }
{
    match Text::literal(alloc, "control") {
        Ok(name) => Tended::Damaged {
            name,
            place,
            why: DamageReason::Control,
        },
        Err(_) => Tended::Memory,
    }
}

/// The file of the slots is wrong at this byte.
pub(crate) fn slots_damage(alloc: Global, place: u64) -> Tended
    ensures { IsDamagedOr slots_name place reason.Slots result }
{
    match Text::literal(alloc, "slots") {
        Ok(name) => Tended::Damaged {
            name,
            place,
            why: DamageReason::Slots,
        },
        Err(_) => Tended::Memory,
    }
}

/// The history of this timeline is wrong.
pub(crate) fn history_damage(alloc: Global, tli: Tli, fault: HistoryFault) -> Tended
    ensures { IsDamagedOr (history_name tli) (line_of fault) (reason.History fault) result }
{
    match history_file(alloc, tli) {
        Ok(name) => damage_of(alloc, &name, line_of(fault), DamageReason::History(fault)),
        Err(_) => Tended::Memory,
    }
}

/// The file of this name is wrong at this place.
pub(crate) fn damage_of(alloc: Global, name: &str, place: u64, why: DamageReason) -> Tended
    requires { IsText name.now }
    ensures { IsDamagedOr name.now place why result }
{
    match Text::copied(alloc, name.as_bytes()) {
        Ok(name) => Tended::Damaged { name, place, why },
        Err(_) => Tended::Memory,
    }
}

/// The line at which a text is wrong: 0 where it is too long.
fn line_of(fault: HistoryFault) -> u64
    ensures { result ≡ line_of fault }
{
    match fault {
        HistoryFault::TooLong { .. } | HistoryFault::Memory => 0,
        HistoryFault::NotNumber(line)
        | HistoryFault::NotSwitch(line)
        | HistoryFault::NotIncreasing(line)
        | HistoryFault::NotBelowOwn(line)
        | HistoryFault::SwitchFalls(line) => line,
    }
}
