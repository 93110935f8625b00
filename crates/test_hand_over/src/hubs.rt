//! Nodes and hubs over them, and what a hub is asked and replies.
ghost use Rattle.std.specs.Prelude.{◌≡◌};

use crate::crossing::there_and_back;
use repl_disk::Disk;
use repl_hub::{HubEvent, HubReply, HubState};
use repl_node::Node;
use std::thread::Threads;

/// A node, over any disk that can be handed over.
pub fn hand_node<R: Threads, D: Disk + Send + Sync + Drop>(rt: &R, node: Node<D>) -> Node<D>
    ensures { result ≡ node }
{
    there_and_back(rt, node)
}

/// A hub, over any disk that can be handed over.
pub fn hand_hub<R: Threads, D: Disk + Send + Sync + Drop>(rt: &R, hub: HubState<D>) -> HubState<D>
    ensures { result ≡ hub }
{
    there_and_back(rt, hub)
}

/// What a hub is asked.
pub fn hand_event<R: Threads>(rt: &R, event: HubEvent) -> HubEvent
    ensures { result ≡ event }
{
    there_and_back(rt, event)
}

/// What a hub replies.
pub fn hand_reply<R: Threads>(rt: &R, reply: HubReply) -> HubReply
    ensures { result ≡ reply }
{
    there_and_back(rt, reply)
}
