//! How the program ends where a command ended so.
ghost use Rattle.std.specs.Prelude.{◌≡◌, ◌≢◌, ℕ};
ghost use Rattle.repl_exit.specs.declared.status.Status.TheVariants as variant;
ghost use Rattle.repl_top.specs.Tool.{status_of_converted, status_of_tended};

use repl_admin::Tended;
use repl_exit::Status;
use repl_filter::Converted;

/// The status of a command that answers its input.
pub(crate) fn status_of_converted(end: Converted) -> Status
    ensures named { result ≡ status_of_converted end }
    ensures other { (word : ℕ) → result ≢ variant.Usage word }
{
    match end {
        Converted::Done => Status::Ok,
        Converted::Refused(place) => Status::BadInput(place),
        Converted::ReadFault => Status::ReadFault,
        Converted::WriteFault => Status::WriteFault,
        Converted::TurnsSpent => Status::TurnsSpent,
        Converted::Memory => Status::Memory,
    }
}

/// The status of a command on a store.
pub(crate) fn status_of_tended(end: Tended) -> Status
    ensures named { result ≡ status_of_tended end }
    ensures other { (word : ℕ) → result ≢ variant.Usage word }
{
    match end {
        Tended::Done => Status::Ok,
        Tended::Damaged { name, place, why } => Status::Damaged { name, place, why },
        Tended::Exists => Status::Exists,
        Tended::DiskFault => Status::DiskFault,
        Tended::WriteFault => Status::WriteFault,
        Tended::Memory => Status::Memory,
    }
}
