//! Why a call on slots did not do what it says.
use repl_disk::DiskError;
use std::alloc::AllocError;
use thiserror::Error;

/// Why a call on slots did not do what it says.
#[derive(Clone, Copy, Debug, PartialEq, Eq, Error)]
pub enum SlotFault {
    /// A disk fault came since the slots were mounted.
    #[error("disk fault before")]
    Broken,
    /// The name is none of a slot.
    #[error("bad slot name")]
    BadName,
    /// A slot has that name.
    #[error("slot exists")]
    Duplicate,
    /// There are as many slots as there may be.
    #[error("all {limit} slots in use")]
    Full { limit: u64 },
    /// No slot has that name.
    #[error("no such slot")]
    NoSlot,
    /// This session owns the slot, or made it for itself.
    #[error("slot in use by {session}")]
    InUse { session: u64 },
    /// The file is wrong at this byte.
    #[error("slots wrong at {0}")]
    BadSlots(u64),
    /// The disk is faulty.
    #[error("disk fault")]
    DiskFault,
    /// There is no memory.
    #[error("out of memory")]
    Memory,
}

impl From<AllocError> for SlotFault {
    ghost use Rattle.std.specs.Prelude.{◌≡◌};
    ghost use Rattle.repl_slots.specs.declared.fault.SlotFault.TheVariants.{Memory};

    ghost from_gives = { λ _ e. e ≡ Memory };

    fn from(_error: AllocError) -> SlotFault {
        SlotFault::Memory
    }
}

/// A name that a disk says is missing where it told of it before is a fault of the disk.
impl From<DiskError> for SlotFault {
    ghost use Rattle.std.specs.Prelude.{◌≡◌};
    ghost use Rattle.repl_slots.specs.Stored.{fault_of};

    ghost from_gives = { λ error fault. fault ≡ fault_of error };

    fn from(error: DiskError) -> SlotFault {
        match error {
            DiskError::Missing | DiskError::Failed => SlotFault::DiskFault,
            DiskError::Memory => SlotFault::Memory,
        }
    }
}
