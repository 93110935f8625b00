//! What the tools tell, in words.
use repl_admin::Tended;
use repl_exit::{Status, status_line};
use rows_table::{Answer, joined};
use std::alloc::Global;

/// How a tool ended, and after that what it wrote.
pub fn told(alloc: Global, end: Tended, written: &[u8]) -> Answer {
    let end = ended(alloc, end)?;
    if written.is_empty() {
        return Ok(end);
    }
    joined(alloc, &[&end, written])
}

/// `Done`, or the line of the status that a program would end with, without its line feed.
fn ended(alloc: Global, end: Tended) -> Answer {
    let status = match end {
        Tended::Done => return Ok(b"Done".to_vec(alloc)?),
        Tended::Damaged { name, place, why } => Status::Damaged { name, place, why },
        Tended::Exists => Status::Exists,
        Tended::DiskFault => Status::DiskFault,
        Tended::WriteFault => Status::WriteFault,
        Tended::Memory => Status::Memory,
    };
    let mut line = status_line(alloc, &status)?;
    line.pop();
    Ok(line)
}
