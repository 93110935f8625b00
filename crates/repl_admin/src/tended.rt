//! How a command on a store ended.
ghost use Rattle.std.specs.Prelude.{◌≡◌};
ghost use Rattle.repl_admin.specs.Tending.{sent_end};

use repl_exit::DamageReason;
use repl_io::Sent;
use repl_text::Text;

/// How a command on a store ended.
#[derive(Debug, Drop, PartialEq)]
pub enum Tended {
    /// It is done, and its lines are written.
    Done,
    /// The file with this name is wrong at this byte, counted from 0, or, of a history, at this line, counted from 1; a line
    /// 0 is that of a text that is too long, and a place 0 that of a file that is missing. It is the first that is wrong.
    Damaged {
        name: Text,
        place: u64,
        why: DamageReason,
    },
    /// There is a store already.
    Exists,
    /// A call of the disk failed.
    DiskFault,
    /// The sink is faulty.
    WriteFault,
    /// There is no memory.
    Memory,
}

/// How a command ends where the writing of its lines ended so.
pub(crate) fn sent_end(sent: Sent) -> Tended
    ensures { result ≡ sent_end sent }
{
    match sent {
        Sent::All => Tended::Done,
        Sent::Failed => Tended::WriteFault,
        Sent::Memory => Tended::Memory,
    }
}
