//! The hub, and the calls that make it or open it again.
ghost use Rattle.repl_node.specs.Holding.{Remembers};
ghost use Rattle.repl_node.specs.State.{NodeState};

use crate::events::event;
use crate::replies;
use crate::values::choice;
use repl_control::{Role, version_1_size};
use repl_disk::MemoryDisk;
use repl_hub::HubState;
use repl_node::Node;
use repl_page::Ident;
use rows_table::{Answer, Call, Miss, debug, number, said, text};
use std::alloc::Global;

pub fn answer(alloc: Global, place: &mut Option<HubState<MemoryDisk>>, call: &Call) -> Answer {
    if let Some([role, sysid]) = call.words("init") {
        let role = role_of(role)?;
        return init(alloc, place, role, number(sysid)?);
    }
    if let Some([way]) = call.words("crash") {
        let keep = choice(way, "keep", "lose")?;
        return mount(alloc, place, keep, None);
    }
    if let Some([passing]) = call.words("fuse") {
        return mount(alloc, place, true, Some(number(passing)?));
    }
    match place {
        Some(hub) => of_hub(alloc, hub, call),
        None => Err(Miss::Call),
    }
}

fn of_hub(alloc: Global, hub: &mut HubState<MemoryDisk>, call: &Call) -> Answer {
    if let Some([count, name, words @ ..]) = call.words("times") {
        let call = Call::new(text(name)?, words);
        return times(alloc, hub, number(count)?, &call);
    }
    if let Some([name, words @ ..]) = call.words("quiet") {
        return quiet(alloc, &Call::new(text(name)?, words));
    }
    replied(alloc, hub, call)
}

/// Whether the event that a call says is quiet.
fn quiet(alloc: Global, call: &Call) -> Answer {
    let quiet = event(alloc, call)?.is_quiet();
    debug(alloc, &quiet)
}

/// What is replied to the event that a call says.
fn replied(alloc: Global, hub: &mut HubState<MemoryDisk>, call: &Call) -> Answer {
    let reply = hub.step(event(alloc, call)?);
    replies::answer(alloc, &reply, call.words("bytes").is_some())
}

/// Makes an event so many times. Answers the last reply.
fn times(alloc: Global, hub: &mut HubState<MemoryDisk>, count: u64, call: &Call) -> Answer {
    let mut last = Vec::new(alloc);
    for _ in 0..count {
        last = replied(alloc, hub, call)?;
    }
    Ok(last)
}

fn role_of(word: &[u8]) -> Result<Role, Miss> {
    match text(word)? {
        "primary" => Ok(Role::Primary),
        "standby" => Ok(Role::Standby),
        _ => Err(Miss::Words),
    }
}

/// Makes a hub of a new node, on a disk without files.
fn init(alloc: Global, place: &mut Option<HubState<MemoryDisk>>, role: Role, sysid: u64) -> Answer {
    let disk = MemoryDisk::new(alloc, Vec::new(alloc));
    let ident = Ident {
        sysid,
        magic: 0xd116,
        size: version_1_size(),
    };
    match Node::init(alloc, disk, ident, role) {
        Ok(node) => {
            *place = Some(HubState::new(alloc, node));
            said(alloc, "done")
        }
        Err((fault, _disk)) => debug(alloc, &fault),
    }
}

/// Makes a hub of the node that is opened again after a crash, which keeps what was not synced or loses it. With a fuse so
/// many calls of the disk pass from then on, and then each fails.
fn mount(
    alloc: Global,
    place: &mut Option<HubState<MemoryDisk>>,
    keep: bool,
    fuse: Option<u64>,
) -> Answer {
    let disk = match place.take() {
        Some(hub) => hub.into_disk().crash(keep),
        None => return Err(Miss::Call),
    };
    match Node::mount(alloc, disk) {
        Ok(node) => {
            *place = Some(HubState::new(alloc, fused(node, fuse)));
            said(alloc, "done")
        }
        Err((fault, _disk)) => debug(alloc, &fault),
    }
}

/// The node, whose disk lets so many calls pass from now on where that is given.
fn fused(node: Node<MemoryDisk>, fuse: Option<u64>) -> Node<MemoryDisk>
    requires { (n : NodeState) × Remembers node n }
    ensures { (n : NodeState) × Remembers result n }
{
    match fuse {
        None => node,
        Some(passing) => {
            let mut node = node;
            node.fuse(passing);
            node
        }
    }
}
