//! How a program ended.
ghost use Rattle.std.specs.Prelude.{◌≡◌, ◌++◌, ◌∷◌, [], codes, IfOk};
ghost use Rattle.repl_exit.specs.Status.{damage_words, line_of, number_of};

use crate::damage::DamageReason;
use repl_text::Text;
use std::alloc::{AllocError, Global};

/// How a program ended.
#[derive(Debug, Drop, PartialEq)]
pub enum Status {
    /// The command is done.
    Ok,
    /// The word with this number, counted from 1, is the first with which no command line goes on, or one
    /// is missing there.
    Usage(usize),
    /// The input is wrong at this byte, counted from 0. Where it is read by lines this is the line, counted from 1, and 0
    /// where the text is too long.
    BadInput(u64),
    /// The input is faulty.
    ReadFault,
    /// The output is faulty.
    WriteFault,
    /// The disk is faulty.
    DiskFault,
    /// The file with this name is wrong at this byte, counted from 0; in a history this is the line, counted from 1, and 0
    /// where the text is too long. It is the first of the store that is.
    Damaged {
        name: Text,
        place: u64,
        why: DamageReason,
    },
    /// The input gave nothing at too many reads.
    TurnsSpent,
    /// There is no memory.
    Memory,
    /// There is a store already.
    Exists,
}

/// The exit status of a program that ended so.
pub fn status_number(status: &Status) -> u8
    ensures { result ≡ number_of status.now }
{
    match status {
        Status::Ok => 0,
        Status::Usage(_) => 2,
        Status::BadInput(_) => 3,
        Status::ReadFault => 5,
        Status::WriteFault => 6,
        Status::DiskFault => 7,
        Status::Damaged { .. } => 8,
        Status::TurnsSpent => 19,
        Status::Memory => 20,
        Status::Exists => 21,
    }
}

/// The line that says so: the status's name, its values, each after a space, and a line feed. Takes memory for it.
pub fn status_line(alloc: Global, status: &Status) -> Result<Vec<u8>, AllocError>
    ensures { IfOk result (λ line. line.items ≡ line_of status.now) }
{
    let line = match status {
        Status::Ok => format!(in alloc; "Ok\n")?,
        Status::Usage(word) => format!(in alloc; "Usage {word}\n")?,
        Status::BadInput(place) => format!(in alloc; "BadInput {place}\n")?,
        Status::ReadFault => format!(in alloc; "ReadFault\n")?,
        Status::WriteFault => format!(in alloc; "WriteFault\n")?,
        Status::DiskFault => format!(in alloc; "DiskFault\n")?,
        Status::Damaged { name, place, why } => return damage_line(alloc, name, *place, *why),
        Status::TurnsSpent => format!(in alloc; "TurnsSpent\n")?,
        Status::Memory => format!(in alloc; "Memory\n")?,
        Status::Exists => format!(in alloc; "Exists\n")?,
    };
    Ok(line.into_bytes())
}

/// The line of a damaged store. A name may be no UTF-8, and stands in the line as it is.
fn damage_line(
    alloc: Global,
    name: &Text,
    place: u64,
    why: DamageReason,
) -> Result<Vec<u8>, AllocError>
    ensures { IfOk result (λ line. line.items ≡ line_of (Status.Damaged name.now place why)) }
{
    let mut line = Vec::new(alloc);
    line.extend_from_slice(b"Damaged ")?;
    line.extend_from_slice(name.as_slice())?;
    let values = format!(in alloc; " {place} {why}\n")?;
    line.extend_from_slice(values.as_bytes())?;
    Ok(line)
}
