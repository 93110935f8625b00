//! What calls refuse, which a thread hands back in its answer.
ghost use Rattle.std.specs.Prelude.{◌≡◌};

use crate::crossing::there_and_back;
use repl_cmd::CmdFault;
use repl_control::ControlFault;
use repl_disk::DiskError;
use repl_lsn::{HistoryFault, PlaceFault};
use repl_message::EncodeFault;
use repl_names::NamesFault;
use repl_page::PageFault;
use repl_record::RecordRefusal;
use repl_slots::SlotFault;
use repl_store::StoreFault;
use repl_sync::SyncFault;
use std::thread::Threads;

/// Why a text is no position, no history, no list of standbys and no command.
pub fn hand_text_faults<R: Threads>(
    rt: &R,
    place: PlaceFault,
    history: HistoryFault,
    names: NamesFault,
    command: CmdFault,
) -> (PlaceFault, HistoryFault, NamesFault, CmdFault)
    ensures { result ≡ (place, history, names, command) }
{
    (
        there_and_back(rt, place),
        there_and_back(rt, history),
        there_and_back(rt, names),
        there_and_back(rt, command),
    )
}

/// Why bytes are no control and no page, and why a message or a record cannot be written.
pub fn hand_byte_faults<R: Threads>(
    rt: &R,
    control: ControlFault,
    page: PageFault,
    message: EncodeFault,
    record_in: RecordRefusal,
) -> (ControlFault, PageFault, EncodeFault, RecordRefusal)
    ensures { result ≡ (control, page, message, record_in) }
{
    (
        there_and_back(rt, control),
        there_and_back(rt, page),
        there_and_back(rt, message),
        there_and_back(rt, record_in),
    )
}

/// What a disk, a store, slots and sessions refuse.
pub fn hand_refusals<R: Threads>(
    rt: &R,
    disk: DiskError,
    store: StoreFault,
    slots: SlotFault,
    sessions: SyncFault,
) -> (DiskError, StoreFault, SlotFault, SyncFault)
    ensures { result ≡ (disk, store, slots, sessions) }
{
    (
        there_and_back(rt, disk),
        there_and_back(rt, store),
        there_and_back(rt, slots),
        there_and_back(rt, sessions),
    )
}
