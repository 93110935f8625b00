//! `pgnode`: one node of PostgreSQL streaming replication.
//!
//! `pgnode [-D DIR] COMMAND ..`: `init primary|standby SYSID [MAGIC]` makes a store in the folder, and the folder where it is
//! not there, `status` prints what one is, and `check` judges one. `identify SYSID TLI LSN` answers one session on its
//! standard input, `frames front` and `frames back` print the messages of theirs, `names TEXT` prints the spelling of a
//! standby list, and `history TLI` the canonical text of the history on its standard input. The work is `run_tool` of
//! `repl_top`; this program gives it the words, the standard streams and the folder, prints the line of every status but Ok
//! on standard error, and ends with the status's number.
#![tactic(auto)]

use repl_disk::{Disk, FolderDisk, MemoryDisk};
use repl_io::{StdSink, StdSource};
use repl_top::{DiskUse, Status, disk_use, folder_of, run_tool, status_line, status_number};
use std::alloc::{AllocError, AllocGlobal};
use std::io::{self, ErrorKind, Write};
use std::process::ExitCode;
use std::rt::Env;
use std::{env, fs};

fn main(rt: HostRuntime) -> ExitCode {
    let status = run(rt);
    if status != Status::Ok {
        // Where the line can't be made or written, the exit status alone tells how the program ended.
        if let Ok(line) = status_line(rt.alloc(), &status) {
            let _ = rt.stderr().write_all(&line);
        }
    }
    ExitCode::from(status_number(&status))
}

/// Does what the words of the command line say, over the standard streams and the folder that they name.
fn run(rt: HostRuntime) -> Status {
    let words = match words(&rt) {
        Ok(words) => words,
        Err(status) => return status,
    };
    match disk_use(&words) {
        DiskUse::Nothing => {
            let disk = MemoryDisk::new(rt.alloc(), Vec::new(rt.alloc()));
            run_over(rt, &words, disk)
        }
        DiskUse::New => {
            // Where the folder is there already, or can't be made, the opening tells.
            let _ = fs::create_dir(&rt, folder_of(&words));
            run_in_folder(rt, &words)
        }
        DiskUse::Old => run_in_folder(rt, &words),
    }
}

/// Does what the words say, over the files of the folder that they name.
fn run_in_folder(rt: HostRuntime, words: &[String]) -> Status {
    match FolderDisk::new(rt, folder_of(words)) {
        Ok(disk) => run_over(rt, words, disk),
        Err(_) => Status::DiskFault,
    }
}

/// Does what the words say, over this disk.
fn run_over<D: Disk + Drop>(rt: HostRuntime, words: &[String], disk: D) -> Status {
    let mut input = StdSource::new(rt.reader());
    let mut out = StdSink::new(io::writer(&rt));
    let (status, _disk) = run_tool(rt.alloc(), words, &mut input, &mut out, disk);
    status
}

/// The words after the program's name. Where one is not UTF-8, std does not tell which: the first is
/// blamed.
fn words(rt: &(impl Env + AllocGlobal)) -> Result<Vec<String>, Status> {
    let words = match env::args(rt) {
        Ok(words) => words,
        Err(error) if error.kind() == ErrorKind::InvalidData => return Err(Status::Usage(1)),
        Err(_) => return Err(Status::Memory),
    };
    match words.skip(1).collect(rt.alloc()) {
        Ok(words) => Ok(words),
        Err(AllocError) => Err(Status::Memory),
    }
}
