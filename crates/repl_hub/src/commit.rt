//! A commit, as events of a hub.
ghost use Rattle.std.specs.Prelude.{◌≡◌, ℕ, [], ◌∷◌, true, Some, Ok, Err};
ghost use Rattle.repl_hub.specs.Commit.{AreBack, AreLooks, Commit, Completes, append_call, flush_call, looked, of_node, of_prepare};
ghost use Rattle.repl_hub.specs.Pass.{MakesSome, Stays};
ghost use Rattle.repl_record.specs.declared.record.RecordIn.{RecordIn};

use crate::asking::{append, cancel, flush, look, prepare, wait};
use crate::pass::Hub;
use crate::reply::WaitFault;
use repl_lsn::Lsn;
use repl_names::{Mode, Setting};
use repl_node::NodeFault;
use repl_record::RecordIn;
use repl_sync::{Certificate, Look, SyncFault};
use std::sync::Wait;
use thiserror::Error;

/// A commit that is acknowledged.
#[derive(Debug, Drop)]
pub struct Acked {
    /// Where its record ends.
    pub end: Lsn,
    /// By whom it is known to be held, where standbys were waited for.
    pub proof: Option<Certificate>,
}

/// Why a commit is not acknowledged.
#[derive(Clone, Copy, Debug, PartialEq, Eq, Error)]
pub enum CommitFault {
    /// The last ticket was given.
    #[error("no ticket is left")]
    NoTicketLeft,
    /// A call of the disk failed since the mount.
    #[error("the node is broken")]
    Broken,
    /// The node is a standby.
    #[error("the node is no primary")]
    NotPrimary,
    /// The record's body is too long.
    #[error("a body of {len} bytes is too long")]
    TooLong { len: u64 },
    /// The log would end past the last position that it may have.
    #[error("the log is full")]
    LogFull,
    /// A call of the disk failed.
    #[error("disk fault")]
    DiskFault,
    /// The record is flushed here, up to this end, and nobody waits for standbys any more.
    #[error("cancelled past {end}")]
    Cancelled { end: Lsn },
    #[error("out of memory")]
    Memory,
}

/// Who is waited for.
#[derive(Clone, Copy)]
pub(crate) struct Waiter {
    ticket: u64,
    mode: Mode,
}

/// Commits a record: it is added, flushed, and waits for standbys, as the setting says. The calls that the pass makes for it are
/// those of `Commit`, in their order.
pub fn commit_on<H: Hub, R: Wait>(
    rt: &R,
    hub: &H,
    pass: &mut H::Pass,
    item: RecordIn,
    setting: Setting,
) -> Result<Acked, CommitFault>
    requires { H.of hub.now pass.old }
    ensures of { H.of hub.now pass.new }
    ensures opened { Stays H.opened pass.old pass.new }
    ensures commits { MakesSome H.opened H.known pass.old (λ calls. Commit item setting calls result) pass.new }
{
    let flushes = !matches!(setting, Setting::Off);
    match setting.mode() {
        None => add(rt, hub, pass, None, flushes, item),
        Some(mode) => match prepare(rt, hub, pass) {
            Ok(ticket) => add(rt, hub, pass, Some(Waiter { ticket, mode }), true, item),
            Err(fault) => Err(of_prepare(fault)),
        },
    }
}

/// Adds the record, and goes on.
fn add<H: Hub, R: Wait>(
    rt: &R,
    hub: &H,
    pass: &mut H::Pass,
    waiter: Option<Waiter>,
    flushes: bool,
    item: RecordIn,
) -> Result<Acked, CommitFault>
    requires { H.of hub.now pass.old }
    ensures of { H.of hub.now pass.new }
    ensures opened { Stays H.opened pass.old pass.new }
    ensures adds { MakesSome H.opened H.known pass.old (Completes waiter flushes item [] result) pass.new }
{
    match append(rt, hub, pass, item) {
        Ok(end) => {
            if flushes {
                flush_up_to(rt, hub, pass, waiter, end)
            } else {
                Ok(Acked { end, proof: None })
            }
        }
        Err(fault) => give_up(rt, hub, pass, waiter, fault),
    }
}

/// Flushes the record, and goes on.
fn flush_up_to<H: Hub, R: Wait>(
    rt: &R,
    hub: &H,
    pass: &mut H::Pass,
    waiter: Option<Waiter>,
    end: Lsn,
) -> Result<Acked, CommitFault>
    requires { H.of hub.now pass.old }
    ensures of { H.of hub.now pass.new }
    ensures opened { Stays H.opened pass.old pass.new }
    ensures added { MakesSome H.opened H.known pass.old (λ calls. (item : RecordIn) → Completes waiter true item (append_call item (Ok end) ∷ []) result calls) pass.new }
{
    match flush(rt, hub, pass) {
        Ok(_) => match waiter {
            None => Ok(Acked { end, proof: None }),
            Some(waiter) => await_standbys(rt, hub, pass, waiter, end),
        },
        Err(fault) => give_up(rt, hub, pass, waiter, fault),
    }
}

/// Waits for standbys.
fn await_standbys<H: Hub, R: Wait>(
    rt: &R,
    hub: &H,
    pass: &mut H::Pass,
    waiter: Waiter,
    end: Lsn,
) -> Result<Acked, CommitFault>
    requires { H.of hub.now pass.old }
    ensures of { H.of hub.now pass.new }
    ensures opened { Stays H.opened pass.old pass.new }
    ensures waits { MakesSome H.opened H.known pass.old (λ calls. (item : RecordIn) (flushed : ℕ) →
        Completes (Some waiter) true item (append_call item (Ok end) ∷ flush_call (Ok flushed) ∷ []) result calls) pass.new }
{
    match wait(rt, hub, pass, waiter.ticket, end, waiter.mode) {
        Ok(()) => looked(end, look_on(rt, hub, pass, waiter.ticket)),
        Err(WaitFault::NotFlushed { .. }) => looked(end, look_on(rt, hub, pass, waiter.ticket)),
        Err(WaitFault::Unknown) => Err(CommitFault::Cancelled { end }),
    }
}

/// Looks at the ticket until its wait is over.
fn look_on<H: Hub, R: Wait>(rt: &R, hub: &H, pass: &mut H::Pass, ticket: u64) -> Look
    requires { H.of hub.now pass.old }
    ensures of { H.of hub.now pass.new }
    ensures opened { Stays H.opened pass.old pass.new }
    ensures looks { MakesSome H.opened H.known pass.old (AreLooks ticket result) pass.new }
{
    for _ in rt.forever() {
        match look(rt, hub, pass, ticket) {
            Look::NotYet => hub.wait_for_change(rt, pass),
            Look::Released(proof) => return Look::Released(proof),
            Look::Cancelled => return Look::Cancelled,
            Look::Unknown => return Look::Unknown,
        }
    }
    unreachable!()
}

/// Hands the ticket back, where there is one, and says why the commit is refused.
fn give_up<H: Hub, R: Wait>(
    rt: &R,
    hub: &H,
    pass: &mut H::Pass,
    waiter: Option<Waiter>,
    fault: NodeFault,
) -> Result<Acked, CommitFault>
    requires { H.of hub.now pass.old }
    ensures of { H.of hub.now pass.new }
    ensures opened { Stays H.opened pass.old pass.new }
    ensures answer { result ≡ Err (of_node fault) }
    ensures gives_up { MakesSome H.opened H.known pass.old (AreBack waiter) pass.new }
{
    if let Some(waiter) = waiter {
        let _ = cancel(rt, hub, pass, waiter.ticket);
    }
    Err(of_node(fault))
}

/// What the last look is to the commit.
fn looked(end: Lsn, answer: Look) -> Result<Acked, CommitFault>
    ensures { result ≡ looked end answer }
{
    match answer {
        Look::Released(proof) => Ok(Acked {
            end,
            proof: Some(proof),
        }),
        Look::Cancelled | Look::Unknown | Look::NotYet => Err(CommitFault::Cancelled { end }),
    }
}

/// What the fault of an append or a flush is to a commit.
fn of_node(fault: NodeFault) -> CommitFault
    ensures { result ≡ of_node fault }
{
    match fault {
        NodeFault::Broken => CommitFault::Broken,
        NodeFault::NotPrimary => CommitFault::NotPrimary,
        NodeFault::TooLong { len } => CommitFault::TooLong { len },
        NodeFault::LogFull => CommitFault::LogFull,
        NodeFault::Memory => CommitFault::Memory,
        _ => CommitFault::DiskFault,
    }
}

/// What a refused ticket is to a commit.
fn of_prepare(fault: SyncFault) -> CommitFault
    ensures { result ≡ of_prepare fault }
{
    match fault {
        SyncFault::Memory => CommitFault::Memory,
        SyncFault::Known | SyncFault::Unknown | SyncFault::NoTicketLeft => {
            CommitFault::NoTicketLeft
        }
    }
}
