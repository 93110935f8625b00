//! The history of a timeline, as peers are told it.
ghost use Rattle.std.specs.Prelude.{◌≡◌, ◌≢◌, IfErr, IfOk};
ghost use Rattle.repl_wal.specs.Holding.{Remembers};
ghost use Rattle.repl_wal.specs.State.{LogState, path_of};
ghost use Rattle.repl_wal.specs.Telling.{IsHistoryOf, IsHistoryRefusal};
ghost use Rattle.repl_wal.specs.Steps.{Only, Step};

use crate::fault::NodeFault;
use crate::wal::Wal;
use repl_disk::Disk;
use repl_lsn::{History, HistoryFault, Tli, history_text};
use std::alloc::Global;

impl<D: Disk> Wal<D> {
    /// The canonical text of the history of a timeline on the path. Timeline 1 has none. Makes no call of the disk, and takes
    /// memory for the text.
    pub fn history(&self, alloc: Global, tli: Tli) -> Result<Vec<u8>, NodeFault>
        ensures { (n : LogState) → Remembers self.now.log n →
            Step (IsHistoryRefusal (path_of n) tli) (tli ≢ 1) (λ text m. IsHistoryOf (path_of n) tli text.items × (m ≡ n)) (Only n) n result n }
    {
        if self.stopped.is_some() {
            return Err(NodeFault::Broken);
        }
        match text_up_to(alloc, self.store.path(), tli) {
            Ok(text) => Ok(text),
            Err(fault) => Err(fault),
        }
    }
}

/// The canonical text of the path up to a timeline.
fn text_up_to(alloc: Global, path: &History, tli: Tli) -> Result<Vec<u8>, NodeFault>
    ensures told { IfOk result (λ text. (tli ≢ 1) × IsHistoryOf path.now tli text.items) }
    ensures refused { IfErr result (IsHistoryRefusal path.now tli) }
{
    if tli == Tli(1) {
        return Err(NodeFault::NoHistory(tli));
    }
    let history = match path.up_to(alloc, tli) {
        Ok(Some(history)) => history,
        Ok(None) => return Err(NodeFault::NoHistory(tli)),
        Err(_) => return Err(NodeFault::Memory),
    };
    match history_text(alloc, &history) {
        Ok(text) => Ok(text),
        Err(HistoryFault::TooLong { have }) => Err(NodeFault::HistoryFull { have }),
        Err(_) => Err(NodeFault::Memory),
    }
}
