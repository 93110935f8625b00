use crate::command::Command;
use crate::name::SlotName;
use repl_lsn::Lsn;

/// How far the tokens of a command have come.
#[derive(Drop)]
pub(crate) enum State {
    /// No token is read.
    Start,
    /// After `SHOW`.
    Show,
    /// After `TIMELINE_HISTORY`.
    History,
    /// After `CREATE_REPLICATION_SLOT`.
    Create,
    /// After the name that follows it.
    CreateNamed(SlotName),
    /// After `TEMPORARY`.
    CreateTemporary(SlotName),
    /// After `PHYSICAL`.
    Created {
        name: SlotName,
        temporary: bool,
    },
    /// After the opening parenthesis.
    CreateOpened {
        name: SlotName,
        temporary: bool,
    },
    /// After `RESERVE_WAL` in parentheses.
    CreateOption {
        name: SlotName,
        temporary: bool,
    },
    /// After its value.
    CreateValued {
        name: SlotName,
        temporary: bool,
        reserve: bool,
    },
    /// After `DROP_REPLICATION_SLOT`.
    DropSlot,
    /// After the name that follows it.
    Dropped(SlotName),
    /// After `READ_REPLICATION_SLOT`.
    ReadSlot,
    /// After `START_REPLICATION`.
    Stream,
    /// After `SLOT`.
    StreamSlot,
    /// After the slot's name.
    StreamNamed(SlotName),
    /// After `PHYSICAL`.
    StreamPhysical(Option<SlotName>),
    /// Past the position.
    Streamed {
        slot: Option<SlotName>,
        at: Lsn,
    },
    /// After `TIMELINE`.
    StreamTimeline {
        slot: Option<SlotName>,
        at: Lsn,
    },
    /// After `APPEND`.
    Append,
    /// After the number that follows it.
    AppendBody(u32),
    /// After `SET`.
    Set,
    /// After `synchronous_commit`.
    SetCommit,
    /// After `=` or `TO`.
    SetValue,
    /// After `ALTER`.
    Alter,
    /// After `SYSTEM`.
    AlterSystem,
    /// After `SET`.
    AlterSet,
    /// After `synchronous_standby_names`.
    AlterNames,
    /// After `=`.
    AlterText,
    /// After `PROMOTE`.
    Promote,
    /// After a command with which nothing goes on but a semicolon.
    Done(Command),
    /// After the semicolon.
    Ended(Command),
}
