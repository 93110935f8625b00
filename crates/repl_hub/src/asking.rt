//! Events as calls, each with the value that is replied.
ghost use Rattle.repl_hub.specs.Pass.{Asks, Stays};
ghost use Rattle.repl_hub.specs.declared.event.HubEvent.TheVariants as event;
ghost use Rattle.repl_hub.specs.declared.reply.HubReply.TheVariants as reply;

use crate::event::HubEvent;
use crate::pass::Hub;
use crate::reply::{HubReply, WaitFault};
use repl_lsn::Lsn;
use repl_names::Mode;
use repl_node::NodeFault;
use repl_record::RecordIn;
use repl_sync::{Look, SyncFault};
use std::sync::Wait;

/// A ticket for a commit.
pub fn prepare<H: Hub, R: Wait>(rt: &R, hub: &H, pass: &mut H::Pass) -> Result<u64, SyncFault>
    requires { H.of hub.now pass.old }
    ensures of { H.of hub.now pass.new }
    ensures opened { Stays H.opened pass.old pass.new }
    ensures asked { Asks H.opened H.known pass.old event.Prepare (reply.Prepare result) pass.new }
{
    match hub.act(rt, pass, HubEvent::Prepare) {
        HubReply::Prepare(result) => result,
        _ => unreachable!(),
    }
}

/// A record is added to a primary's log. Answers where it ends.
pub fn append<H: Hub, R: Wait>(
    rt: &R,
    hub: &H,
    pass: &mut H::Pass,
    item: RecordIn,
) -> Result<Lsn, NodeFault>
    requires { H.of hub.now pass.old }
    ensures of { H.of hub.now pass.new }
    ensures opened { Stays H.opened pass.old pass.new }
    ensures asked { Asks H.opened H.known pass.old (event.Append item) (reply.Append result) pass.new }
{
    match hub.act(rt, pass, HubEvent::Append(item)) {
        HubReply::Append(result) => result,
        _ => unreachable!(),
    }
}

/// All written bytes are made certain. Answers the flushed end.
pub fn flush<H: Hub, R: Wait>(rt: &R, hub: &H, pass: &mut H::Pass) -> Result<Lsn, NodeFault>
    requires { H.of hub.now pass.old }
    ensures of { H.of hub.now pass.new }
    ensures opened { Stays H.opened pass.old pass.new }
    ensures asked { Asks H.opened H.known pass.old event.Flush (reply.Flush result) pass.new }
{
    match hub.act(rt, pass, HubEvent::Flush) {
        HubReply::Flush(result) => result,
        _ => unreachable!(),
    }
}

/// The ticket's commit, which ends here, waits for the standbys that the list demands.
pub fn wait<H: Hub, R: Wait>(
    rt: &R,
    hub: &H,
    pass: &mut H::Pass,
    ticket: u64,
    end: Lsn,
    mode: Mode,
) -> Result<(), WaitFault>
    requires { H.of hub.now pass.old }
    ensures of { H.of hub.now pass.new }
    ensures opened { Stays H.opened pass.old pass.new }
    ensures asked { Asks H.opened H.known pass.old (event.Wait ticket end mode) (reply.Wait result) pass.new }
{
    match hub.act(rt, pass, HubEvent::Wait { ticket, end, mode }) {
        HubReply::Wait(result) => result,
        _ => unreachable!(),
    }
}

/// What has become of the ticket's commit.
pub fn look<H: Hub, R: Wait>(rt: &R, hub: &H, pass: &mut H::Pass, ticket: u64) -> Look
    requires { H.of hub.now pass.old }
    ensures of { H.of hub.now pass.new }
    ensures opened { Stays H.opened pass.old pass.new }
    ensures asked { Asks H.opened H.known pass.old (event.Look ticket) (reply.Look result) pass.new }
{
    match hub.act(rt, pass, HubEvent::Look(ticket)) {
        HubReply::Look(result) => result,
        _ => unreachable!(),
    }
}

/// The ticket's commit waits no more.
pub fn cancel<H: Hub, R: Wait>(
    rt: &R,
    hub: &H,
    pass: &mut H::Pass,
    ticket: u64,
) -> Result<(), SyncFault>
    requires { H.of hub.now pass.old }
    ensures of { H.of hub.now pass.new }
    ensures opened { Stays H.opened pass.old pass.new }
    ensures asked { Asks H.opened H.known pass.old (event.Cancel ticket) (reply.Cancel result) pass.new }
{
    match hub.act(rt, pass, HubEvent::Cancel(ticket)) {
        HubReply::Cancel(result) => result,
        _ => unreachable!(),
    }
}
