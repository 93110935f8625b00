//! What a command line asks for.
ghost use Rattle.std.specs.Prelude.{◌≡◌, [], get_or, drop, IfOk, IfErr};
ghost use Rattle.repl_lsn.specs.Position.{Spells};
ghost use Rattle.repl_args.specs.Forms.{tail_maybe};
ghost use Rattle.repl_args.specs.Lines.{IsTail, IsUsage};
ghost use Rattle.repl_args.specs.Words.{texts};
ghost use Rattle.repl_top.specs.declared.kinds.Word.TheVariants as kind;
ghost use Rattle.repl_top.specs.Words.{IsMagic, IsRole, IsSide, IsSystem, IsTask, IsTimeline, IsWordOf, SaysMagic, disk_use, the_table};

use crate::folder::DiskUse;
use crate::kinds::{read_magic, read_position, read_role, read_side, read_system, read_timeline};
use crate::table::{Command, TABLE};
use repl_args::{read_line, word_at};
use repl_identify::SystemIdentity;
use repl_lsn::{Lsn, Tli};
use repl_store::Role;
use repl_wire::Side;

/// The magic number of pages where the words say none: that of PostgreSQL 17.
const MAGIC: u16 = 0xd116;

const _: () = prove!(MAGIC == 53_526);

/// What a command line asks for.
#[derive(Clone, Copy)]
pub(crate) enum Task<'w> {
    /// `identify SYSID TLI LSN`.
    Identify(SystemIdentity),
    /// `frames front` or `frames back`.
    Frames(Side),
    /// `names TEXT`.
    Names(&'w str),
    /// `history TLI`.
    History(Tli),
    /// `init primary SYSID [MAGIC]` or `init standby SYSID [MAGIC]`.
    Init { role: Role, sysid: u64, magic: u16 },
    /// `status`.
    Status,
    /// `check`.
    Check,
}

/// Reads the words of a command line, without the program's name.
///
/// A fault is the number, counted from 1, of the first word with which no command line goes on, or of the
/// word that is missing after the last.
pub(crate) fn read_task(words: &[String]) -> Result<Task<'_>, usize>
    ensures read { IfOk result (λ task. IsTask (texts words.now) task) }
    ensures wrong { IfErr result (λ word. IsUsage IsWordOf the_table (texts words.now) word) }
{
    let line = match read_line(&TABLE, words) {
        Ok(line) => line,
        Err(word) => return Err(word),
    };
    let first = line.first;
    match line.command {
        Command::Identify => Ok(Task::Identify(SystemIdentity {
            system: system_at(words, first + 1),
            timeline: timeline_at(words, first + 2),
            flushed: position_at(words, first + 3),
        })),
        Command::Frames => Ok(Task::Frames(side_at(words, first + 1))),
        Command::Names => Ok(Task::Names(word_at(words, first + 1))),
        Command::History => Ok(Task::History(timeline_at(words, first + 1))),
        Command::Init => Ok(Task::Init {
            role: role_at(words, first + 1),
            sysid: system_at(words, first + 2),
            magic: magic_past(words, line.past),
        }),
        Command::Status => Ok(Task::Status),
        Command::Check => Ok(Task::Check),
    }
}

/// The system identifier that stands there.
fn system_at(words: &[String], place: usize) -> u64
    requires { IsWordOf kind.System (get_or (texts words.now) place []) }
    ensures { IsSystem (get_or (texts words.now) place []) result }
{
    match read_system(word_at(words, place)) {
        Some(system) => system,
        None => unreachable!(),
    }
}

/// The timeline's number that stands there.
fn timeline_at(words: &[String], place: usize) -> Tli
    requires { IsWordOf kind.Timeline (get_or (texts words.now) place []) }
    ensures { IsTimeline (get_or (texts words.now) place []) result }
{
    match read_timeline(word_at(words, place)) {
        Some(timeline) => timeline,
        None => unreachable!(),
    }
}

/// The position that stands there.
fn position_at(words: &[String], place: usize) -> Lsn
    requires { IsWordOf kind.Position (get_or (texts words.now) place []) }
    ensures { Spells (get_or (texts words.now) place []) result }
{
    match read_position(word_at(words, place)) {
        Some(position) => position,
        None => unreachable!(),
    }
}

/// The side that stands there.
fn side_at(words: &[String], place: usize) -> Side
    requires { IsWordOf kind.Side (get_or (texts words.now) place []) }
    ensures { IsSide (get_or (texts words.now) place []) result }
{
    match read_side(word_at(words, place)) {
        Some(side) => side,
        None => unreachable!(),
    }
}

/// The role that stands there.
fn role_at(words: &[String], place: usize) -> Role
    requires { IsWordOf kind.Role (get_or (texts words.now) place []) }
    ensures { IsRole (get_or (texts words.now) place []) result }
{
    match read_role(word_at(words, place)) {
        Some(role) => role,
        None => unreachable!(),
    }
}

/// The magic number that stands there, or that of PostgreSQL 17 where the words end.
fn magic_past(words: &[String], place: usize) -> u16
    requires { IsTail IsWordOf (tail_maybe kind.Magic) (drop place (texts words.now)) }
    ensures { SaysMagic (drop place (texts words.now)) result }
{
    if place < words.len() {
        magic_at(words, place)
    } else {
        MAGIC
    }
}

/// The magic number that stands there.
fn magic_at(words: &[String], place: usize) -> u16
    requires { IsWordOf kind.Magic (get_or (texts words.now) place []) }
    ensures { IsMagic (get_or (texts words.now) place []) result }
{
    match read_magic(word_at(words, place)) {
        Some(magic) => magic,
        None => unreachable!(),
    }
}

impl Task<'_> {
    /// What it asks of the folder.
    pub(crate) fn disk_use(&self) -> DiskUse
        ensures { result ≡ disk_use self.now }
    {
        match self {
            Task::Identify(_) | Task::Frames(_) | Task::Names(_) | Task::History(_) => {
                DiskUse::Nothing
            }
            Task::Init { .. } => DiskUse::New,
            Task::Status | Task::Check => DiskUse::Old,
        }
    }
}
