//! What a hub replies, in words.
use crate::answers::{
    begun, certificate, done, end, given, identity, place, standbys, status, text,
};
use repl_hub::{HubReply, LogRead};
use repl_node::NodeFault;
use repl_sync::Look;
use rows_table::{Answer, debug, said};
use std::alloc::Global;

/// The words for a reply. Of a read they are the bytes, where those are wanted, or else how many there are.
pub fn answer(alloc: Global, reply: &HubReply, bytes: bool) -> Answer {
    match reply {
        HubReply::Identify(told) => identity(alloc, told),
        HubReply::History(told) => text(alloc, told),
        HubReply::Read(told) => read(alloc, told, bytes),
        HubReply::Append(told) => end(alloc, told),
        HubReply::Flush(told) => end(alloc, told),
        HubReply::Receive(told) => end(alloc, told),
        HubReply::Follow(told) => done(alloc, told),
        HubReply::Promote(told) => begun(alloc, told),
        HubReply::Demote(told) => done(alloc, told),
        HubReply::Trim(told) => end(alloc, told),
        HubReply::Status(told) => status(alloc, told),
        HubReply::SlotCreate(told) => done(alloc, told),
        HubReply::SlotDrop(told) => done(alloc, told),
        HubReply::SlotRead(told) => place(alloc, told),
        HubReply::SlotAcquire(told) => done(alloc, told),
        HubReply::SlotRelease => said(alloc, "done"),
        HubReply::SlotConfirm => said(alloc, "done"),
        HubReply::SlotSave(told) => done(alloc, told),
        HubReply::Connect(told) => given(alloc, told),
        HubReply::Streaming(told) => done(alloc, told),
        HubReply::StopStreaming(told) => done(alloc, told),
        HubReply::Report(told) => done(alloc, told),
        HubReply::Feedback(told) => done(alloc, told),
        HubReply::Disconnect(told) => done(alloc, told),
        HubReply::SetNames(told) => done(alloc, told),
        HubReply::Prepare(told) => given(alloc, told),
        HubReply::Wait(told) => done(alloc, told),
        HubReply::Look(told) => look(alloc, told),
        HubReply::Cancel(told) => done(alloc, told),
        HubReply::Names(told) => standbys(alloc, told),
        HubReply::Stop => said(alloc, "done"),
    }
}

fn read(alloc: Global, told: &Result<LogRead, NodeFault>, bytes: bool) -> Answer {
    match told {
        Ok(LogRead::Bytes(all)) if bytes => Ok(all.as_slice().to_vec(alloc)?),
        Ok(LogRead::Bytes(all)) => {
            Ok(format!(in alloc; "Bytes({})", all.as_slice().len())?.into_bytes())
        }
        Ok(LogRead::AtEnd) => said(alloc, "AtEnd"),
        Ok(LogRead::Ended { next, switch }) => {
            Ok(format!(in alloc; "Ended {next} {switch}")?.into_bytes())
        }
        Err(fault) => debug(alloc, fault),
    }
}

/// What has become of a commit, and of one that was released who met the list.
fn look(alloc: Global, told: &Look) -> Answer {
    match told {
        Look::NotYet => said(alloc, "NotYet"),
        Look::Released(released) => certificate(alloc, released),
        Look::Cancelled => said(alloc, "Cancelled"),
        Look::Unknown => said(alloc, "Unknown"),
    }
}
