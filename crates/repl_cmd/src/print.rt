ghost use Rattle.std.specs.Prelude.{◌≡◌, ◌++◌, IfOk};
ghost use Rattle.repl_cmd.specs.declared.command.Command.TheVariants as command_of;
ghost use Rattle.repl_cmd.specs.Command.{IsCommand, SaysCommand};
ghost use Rattle.repl_cmd.specs.Printing.{spelling};

use crate::command::Command;
use crate::name::{ParameterName, SlotName};
use crate::put::{
    put_body, put_decimal, put_names, put_number, put_parameter, put_position, put_slot,
    put_slot_name, put_timeline, put_word_if,
};
use bytes::Bytes;
use repl_lsn::{Lsn, Tli};
use repl_names::{Setting, StandbyList};
use std::alloc::{AllocError, Global};

/// The room that a text is given at first: each of a replication connection fits, but for long parameter names.
const TEXT_ROOM: usize = 136;

/// The one spelling of the command, which is read back as it: keywords in capitals, one space between tokens, and
/// names in quotes. PostgreSQL 17 reads those of a replication connection too. Takes memory.
pub fn print_command(alloc: Global, command: &Command) -> Result<Vec<u8>, AllocError>
    ensures exact { IfOk result (λ text. text.items ≡ spelling command.now) }
    ensures read_back { IfOk result (λ text. SaysCommand text.items command.now) }
{
    let mut out = Vec::with_capacity(alloc, TEXT_ROOM)?;
    put_command(alloc, &mut out, command)?;
    Ok(out)
}

/// Appends the command's spelling, as each function below does that of its own kind. Takes memory.
fn put_command(alloc: Global, out: &mut Vec<u8>, command: &Command) -> Result<(), AllocError>
    ensures exact { IfOk result (λ _. out.new.items ≡ out.old.items ++ spelling command.now) }
    ensures is { IfOk result (λ _. IsCommand command.now) }
{
    match command {
        Command::IdentifySystem => out.extend_from_slice(b"IDENTIFY_SYSTEM"),
        Command::Show(name) => put_show(out, name),
        Command::TimelineHistory(timeline) => put_history(alloc, out, *timeline),
        Command::CreateSlot {
            name,
            temporary,
            reserve,
        } => put_create(out, name, *temporary, *reserve),
        Command::DropSlot { name, wait } => put_drop(out, name, *wait),
        Command::ReadSlot(name) => put_read(out, name),
        Command::StartReplication { slot, at, timeline } => {
            put_start(alloc, out, slot, *at, *timeline)
        }
        Command::Append { xid, body } => put_append(alloc, out, *xid, body),
        Command::SetCommit(setting) => put_commit(out, *setting),
        Command::SetNames(list) => put_list(alloc, out, list),
        Command::Promote(timeline) => put_promote(alloc, out, *timeline),
        Command::Demote => out.extend_from_slice(b"DEMOTE"),
        Command::Trim => out.extend_from_slice(b"TRIM"),
        Command::Status => out.extend_from_slice(b"STATUS"),
        Command::Stop => out.extend_from_slice(b"STOP"),
    }
}

fn put_show(out: &mut Vec<u8>, name: &ParameterName) -> Result<(), AllocError>
    ensures exact { IfOk result (λ _. out.new.items ≡ out.old.items ++ spelling (command_of.Show name.now)) }
    ensures is { IfOk result (λ _. IsCommand (command_of.Show name.now)) }
{
    out.extend_from_slice(b"SHOW ")?;
    put_parameter(out, name)
}

fn put_history(alloc: Global, out: &mut Vec<u8>, timeline: Tli) -> Result<(), AllocError>
    ensures exact { IfOk result (λ _. out.new.items ≡ out.old.items ++ spelling (command_of.TimelineHistory timeline)) }
    ensures is { IfOk result (λ _. IsCommand (command_of.TimelineHistory timeline)) }
{
    out.extend_from_slice(b"TIMELINE_HISTORY ")?;
    put_decimal(alloc, out, timeline.number())
}

fn put_create(
    out: &mut Vec<u8>,
    name: &SlotName,
    temporary: bool,
    reserve: bool,
) -> Result<(), AllocError>
    ensures exact { IfOk result (λ _. out.new.items ≡ out.old.items ++ spelling (command_of.CreateSlot name.now temporary reserve)) }
    ensures is { IfOk result (λ _. IsCommand (command_of.CreateSlot name.now temporary reserve)) }
{
    out.extend_from_slice(b"CREATE_REPLICATION_SLOT ")?;
    put_slot_name(out, name)?;
    put_word_if(out, temporary, b" TEMPORARY")?;
    out.extend_from_slice(b" PHYSICAL")?;
    put_word_if(out, reserve, b" RESERVE_WAL")
}

fn put_drop(out: &mut Vec<u8>, name: &SlotName, wait: bool) -> Result<(), AllocError>
    ensures exact { IfOk result (λ _. out.new.items ≡ out.old.items ++ spelling (command_of.DropSlot name.now wait)) }
    ensures is { IfOk result (λ _. IsCommand (command_of.DropSlot name.now wait)) }
{
    out.extend_from_slice(b"DROP_REPLICATION_SLOT ")?;
    put_slot_name(out, name)?;
    put_word_if(out, wait, b" WAIT")
}

fn put_read(out: &mut Vec<u8>, name: &SlotName) -> Result<(), AllocError>
    ensures exact { IfOk result (λ _. out.new.items ≡ out.old.items ++ spelling (command_of.ReadSlot name.now)) }
    ensures is { IfOk result (λ _. IsCommand (command_of.ReadSlot name.now)) }
{
    out.extend_from_slice(b"READ_REPLICATION_SLOT ")?;
    put_slot_name(out, name)
}

fn put_start(
    alloc: Global,
    out: &mut Vec<u8>,
    slot: &Option<SlotName>,
    at: Lsn,
    timeline: Option<Tli>,
) -> Result<(), AllocError>
    ensures exact { IfOk result (λ _. out.new.items ≡ out.old.items ++ spelling (command_of.StartReplication slot.now at timeline)) }
    ensures is { IfOk result (λ _. IsCommand (command_of.StartReplication slot.now at timeline)) }
{
    out.extend_from_slice(b"START_REPLICATION ")?;
    put_slot(out, slot)?;
    out.extend_from_slice(b"PHYSICAL ")?;
    put_position(alloc, out, at)?;
    put_timeline(alloc, out, timeline)
}

fn put_append(alloc: Global, out: &mut Vec<u8>, xid: u32, body: &Bytes) -> Result<(), AllocError>
    ensures exact { IfOk result (λ _. out.new.items ≡ out.old.items ++ spelling (command_of.Append xid body.now)) }
    ensures is { IfOk result (λ _. IsCommand (command_of.Append xid body.now)) }
{
    out.extend_from_slice(b"APPEND ")?;
    put_decimal(alloc, out, xid)?;
    out.push(b' ')?;
    put_body(alloc, out, body.as_slice())
}

fn put_commit(out: &mut Vec<u8>, setting: Setting) -> Result<(), AllocError>
    ensures exact { IfOk result (λ _. out.new.items ≡ out.old.items ++ spelling (command_of.SetCommit setting)) }
    ensures is { IfOk result (λ _. IsCommand (command_of.SetCommit setting)) }
{
    out.extend_from_slice(b"SET synchronous_commit = ")?;
    out.extend_from_slice(setting.word())
}

fn put_list(alloc: Global, out: &mut Vec<u8>, list: &StandbyList) -> Result<(), AllocError>
    ensures exact { IfOk result (λ _. out.new.items ≡ out.old.items ++ spelling (command_of.SetNames list.now)) }
    ensures is { IfOk result (λ _. IsCommand (command_of.SetNames list.now)) }
{
    out.extend_from_slice(b"ALTER SYSTEM SET synchronous_standby_names = ")?;
    put_names(alloc, out, list)
}

fn put_promote(alloc: Global, out: &mut Vec<u8>, timeline: Option<Tli>) -> Result<(), AllocError>
    ensures exact { IfOk result (λ _. out.new.items ≡ out.old.items ++ spelling (command_of.Promote timeline)) }
    ensures is { IfOk result (λ _. IsCommand (command_of.Promote timeline)) }
{
    out.extend_from_slice(b"PROMOTE")?;
    put_number(alloc, out, timeline)
}
