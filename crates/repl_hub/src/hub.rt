//! A hub.
ghost use Rattle.std.specs.Prelude.{◌≡◌, [], false};
ghost use Rattle.repl_hub.specs.Holding.{HasCause, Steps, disk_of};
ghost use Rattle.repl_hub.specs.Leaving.{HubLeaves};
ghost use Rattle.repl_hub.specs.State.{HubView};
ghost use Rattle.repl_hub.specs.Step.{HubStep, TellsFailure};
ghost use Rattle.repl_node.specs.Holding.{Remembers};
ghost use Rattle.repl_node.specs.State.{NodeState};
ghost use Rattle.repl_names.specs.declared.list.Method.TheVariants as Method;

use crate::event::HubEvent;
use crate::link::Link;
use crate::reply::HubReply;
use repl_disk::Disk;
use repl_node::Node;
use repl_sync::SyncState;
use std::alloc::Global;
use std::marker::Model;

/// A node, the sessions that are connected to it, and the commits that wait for its standbys.
#[derive(Drop)]
pub struct HubState<D: Disk> {
    pub(crate) node: Node<D>,
    pub(crate) sync: SyncState,
    /// The connections, in the order in which they came.
    pub(crate) links: Vec<Link>,
    /// The number of the last session, 0 at first.
    pub(crate) last: u64,
    /// A `Stop` came.
    pub(crate) stopped: bool,
    pub(crate) alloc: Global,
}

impl<D: Disk> Model for HubState<D> {
    ghost use Rattle.repl_hub.specs.Holding.{HeldHub, IsKept};

    ghost Value = { HeldHub D };

    ghost view = { λ h. record { node = h.node; sync = h.sync; links = h.links.items; last = h.last; stopped = h.stopped } };

    ghost invariant = { λ h. IsKept {D = D} (record { node = h.node; sync = h.sync; links = h.links.items; last = h.last; stopped = h.stopped }) };
}

impl<D: Disk> HubState<D> {
    /// A hub of this node, to which nobody is connected. The list without names is in force. Events take memory from `alloc`.
    pub fn new(alloc: Global, node: Node<D>) -> HubState<D>
        requires { (n : NodeState) × Remembers node n }
        ensures node { result.node ≡ node }
        ensures sync { result.sync ≡ record { sessions = []; list = record { method = Method.First; number = 0; names = [] }; tickets = []; last = 0 } }
        ensures links { (result.links ≡ []) × (result.last ≡ 0) × (result.stopped ≡ false) }
    {
        HubState {
            node,
            sync: SyncState::new(alloc),
            links: Vec::new(alloc),
            last: 0,
            stopped: false,
            alloc,
        }
    }

    /// The disk, as the hub leaves it.
    pub fn into_disk(self) -> D
        ensures { result ≡ disk_of self }
    {
        self.node.into_disk()
    }

    /// Makes an event. What is replied, and what becomes of the hub, is said event by event. An event of the node's log or of its
    /// slots calls the disk as the node's call of the same name does, and no other event calls it.
    pub fn step(&mut self, event: HubEvent) -> HubReply
        ensures steps { Steps D.state self.old self.new (λ h. HubStep h event result) (λ h. HubLeaves h event) }
        // In some state it is so over every disk.
        ensures gives { (h : HubView) × (m : HubView) × HubStep h event result m }
        // A failure is replied only where the disk counted one, or, where its files are not known, a lack.
        ensures failed { HasCause D.state self.old self.new (TellsFailure result) }
        ensures keeps { D.keeps (disk_of self.old) (disk_of self.new) }
    {
        // The node is in some state.
        let _ = &self.node;
        self.make(event)
    }

    /// Makes an event.
    fn make(&mut self, event: HubEvent) -> HubReply
        ensures steps { Steps D.state self.old self.new (λ h. HubStep h event result) (λ h. HubLeaves h event) }
        ensures failed { HasCause D.state self.old self.new (TellsFailure result) }
        ensures keeps { D.keeps (disk_of self.old) (disk_of self.new) }
    {
        match event {
            HubEvent::Identify => HubReply::Identify(self.node.identify()),
            HubEvent::History(tli) => HubReply::History(self.history(tli)),
            HubEvent::Read { tli, at, most } => HubReply::Read(self.read(tli, at, most)),
            HubEvent::Append(item) => HubReply::Append(self.append(&item)),
            HubEvent::Flush => HubReply::Flush(self.flush()),
            HubEvent::Receive { tli, start, bytes } => {
                HubReply::Receive(self.receive(tli, start, &bytes))
            }
            HubEvent::Follow(child) => HubReply::Follow(self.follow(&child)),
            HubEvent::Promote(at_least) => HubReply::Promote(self.promote(at_least)),
            HubEvent::Demote => HubReply::Demote(self.demote()),
            HubEvent::Trim(keep) => HubReply::Trim(self.trim(keep)),
            HubEvent::Status => HubReply::Status(self.status()),
            HubEvent::SlotCreate {
                session,
                name,
                temporary,
                reserve,
            } => HubReply::SlotCreate(self.slot_create(session, &name, temporary, reserve)),
            HubEvent::SlotDrop { session, name } => {
                HubReply::SlotDrop(self.slot_drop(session, &name))
            }
            HubEvent::SlotRead(name) => HubReply::SlotRead(self.slot_read(&name)),
            HubEvent::SlotAcquire { session, name } => {
                HubReply::SlotAcquire(self.slot_acquire(session, &name))
            }
            HubEvent::SlotRelease(session) => {
                self.slot_release(session);
                HubReply::SlotRelease
            }
            HubEvent::SlotConfirm { session, at } => {
                self.slot_confirm(session, at);
                HubReply::SlotConfirm
            }
            HubEvent::SlotSave => HubReply::SlotSave(self.slot_save()),
            HubEvent::Connect { name, replication } => {
                HubReply::Connect(self.connect(&name, replication))
            }
            HubEvent::Streaming { session, tli } => {
                HubReply::Streaming(self.streaming(session, tli))
            }
            HubEvent::StopStreaming(session) => {
                HubReply::StopStreaming(self.stop_streaming(session))
            }
            HubEvent::Report {
                session,
                written,
                flushed,
                applied,
            } => HubReply::Report(self.report(session, written, flushed, applied)),
            HubEvent::Feedback { session, value } => {
                HubReply::Feedback(self.feedback(session, value))
            }
            HubEvent::Disconnect(session) => HubReply::Disconnect(self.disconnect(session)),
            HubEvent::SetNames(list) => HubReply::SetNames(self.set_names(&list)),
            HubEvent::Prepare => HubReply::Prepare(self.prepare()),
            HubEvent::Wait { ticket, end, mode } => HubReply::Wait(self.wait(ticket, end, mode)),
            HubEvent::Look(ticket) => HubReply::Look(self.look(ticket)),
            HubEvent::Cancel(ticket) => HubReply::Cancel(self.cancel(ticket)),
            HubEvent::Names => HubReply::Names(self.names()),
            HubEvent::Stop => {
                self.stop();
                HubReply::Stop
            }
        }
    }
}
