//! The command line of `pgnode`, but for serving.
ghost use Rattle.std.specs.Prelude.{◌≡◌, ◌≢◌, ℕ, ◌↔◌};
ghost use Rattle.repl_args.specs.Lines.{IsLine, IsUsage};
ghost use Rattle.repl_args.specs.Words.{texts};
ghost use Rattle.repl_top.specs.Tool.{Did, Ends, TellsFaults};
ghost use Rattle.repl_top.specs.Words.{IsWordOf, the_table};
ghost use Rattle.repl_exit.specs.declared.status.Status.TheVariants as Status;

use crate::ends::{status_of_converted, status_of_tended};
use crate::task::{Task, read_task};
use repl_admin::{check, init, status};
use repl_disk::Disk;
use repl_exit::Status;
use repl_identify::identify;
use repl_io::{Sink, Source};
use repl_print::{frames, history, names};
use std::alloc::Global;

/// Does what the words say, over this input, output and disk, and says how that ended. The disk comes back beside every
/// status.
///
/// `identify SYSID TLI LSN` answers one session of a client that asks for IDENTIFY_SYSTEM any number of times,
/// as the server with this system identifier would, on this timeline and flushed up to this position. Requests
/// for encryption before the session are answered by `N`. `frames SIDE` prints the messages of what a side sends, `names TEXT`
/// the spelling of a standby list, and `history TLI` the canonical text of a timeline's history. `init ROLE SYSID [MAGIC]`
/// makes a store on the disk, `status` prints what one is, and `check` judges one.
pub fn run_tool<S: Source, K: Sink, D: Disk>(
    alloc: Global,
    words: &[String],
    input: &mut S,
    out: &mut K,
    disk: D,
) -> (Status, D)
    // The words are refused exactly where they are no command line, and at the first that is wrong.
    ensures usage { (word : ℕ) → (result.0 ≡ Status.Usage word) ↔ IsUsage IsWordOf the_table (texts words.now) word }
    // Nothing is read or written then.
    ensures untouched { (word : ℕ) → result.0 ≡ Status.Usage word → (input.new ≡ input.old) × (out.new ≡ out.old) × (result.1 ≡ disk) }
    // A command line asks for one thing, and that ends as its definition says: what was read, what was written, and the
    // cause of each status. What has no part in it is as it was.
    ensures ends { IsLine IsWordOf the_table (texts words.now) → Did (texts words.now) result.0 (input.new ≡ input.old) (result.1 ≡ disk)
        (S.source input.old) (S.source input.new) (K.sink out.old) (K.sink out.new) (D.state disk) (D.state result.1) }
    // A fault is told exactly where an object was faulty.
    ensures faults { TellsFaults result.0 (S.source input.old) (S.source input.new) (K.sink out.old) (K.sink out.new) (D.state disk) (D.state result.1) }
    ensures keeps { D.keeps disk result.1 }
{
    match read_task(words) {
        Ok(task) => done(alloc, &task, input, out, disk),
        Err(word) => (Status::Usage(word), disk),
    }
}

/// Does this task.
fn done<S: Source, K: Sink, D: Disk>(
    alloc: Global,
    task: &Task<'_>,
    input: &mut S,
    out: &mut K,
    disk: D,
) -> (Status, D)
    ensures other { (word : ℕ) → result.0 ≢ Status.Usage word }
    ensures ends { Ends task.now result.0 (input.new ≡ input.old) (result.1 ≡ disk)
        (S.source input.old) (S.source input.new) (K.sink out.old) (K.sink out.new) (D.state disk) (D.state result.1) }
    ensures faults { TellsFaults result.0 (S.source input.old) (S.source input.new) (K.sink out.old) (K.sink out.new) (D.state disk) (D.state result.1) }
    ensures keeps { D.keeps disk result.1 }
{
    match task {
        Task::Identify(identity) => {
            let end = identify(alloc, identity, input, out);
            (status_of_converted(end), disk)
        }
        Task::Frames(side) => (status_of_converted(frames(alloc, *side, input, out)), disk),
        Task::Names(text) => (
            status_of_converted(names(alloc, text.as_bytes(), out)),
            disk,
        ),
        Task::History(own) => (status_of_converted(history(alloc, *own, input, out)), disk),
        Task::Init { role, sysid, magic } => {
            let (end, disk) = init(alloc, disk, *role, *sysid, *magic, out);
            (status_of_tended(end), disk)
        }
        Task::Status => {
            let (end, disk) = status(alloc, disk, out);
            (status_of_tended(end), disk)
        }
        Task::Check => {
            let (end, disk) = check(alloc, disk, out);
            (status_of_tended(end), disk)
        }
    }
}
