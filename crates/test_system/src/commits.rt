//! Commits at each setting, on a hub over a disk in memory.
//!
//! No names are in force, so nobody is waited for: at `remote_write` and above a commit is released as it begins to wait, with
//! a certificate that nobody had to meet. A record here has 32 bytes, after the log's first header of 40.
use bytes::Bytes;
use repl_control::{Role, version_1_size};
use repl_disk::MemoryDisk;
use repl_hub::{Acked, CommitFault, Hub, HubEvent, HubState, SoloHub, SoloPass, commit_on};
use repl_names::Setting;
use repl_node::Node;
use repl_page::Ident;
use repl_record::RecordIn;
use std::alloc::{AllocError, Global};
use std::process::Abort;
use std::sync::Wait;
use std::test::*;

/// A body that no record may have.
const TOO_LONG: usize = 1_048_577;

/// An event, or a commit of a record whose body has so many bytes, and what becomes of it.
enum Deed {
    Commit(usize, Setting, &'static str),
    Demote,
    Promote,
    Stop,
}

const DEEDS: [Deed; 14] = [
    Deed::Commit(6, Setting::Off, "acknowledged at 0/1000048"),
    Deed::Commit(6, Setting::Local, "acknowledged at 0/1000068"),
    Deed::Commit(
        6,
        Setting::RemoteWrite,
        "acknowledged at 0/1000088, Write 0/1000088 met by 0",
    ),
    Deed::Commit(
        6,
        Setting::On,
        "acknowledged at 0/10000A8, Flush 0/10000A8 met by 0",
    ),
    Deed::Commit(
        6,
        Setting::RemoteApply,
        "acknowledged at 0/10000C8, Apply 0/10000C8 met by 0",
    ),
    Deed::Commit(TOO_LONG, Setting::On, "TooLong { len: 1048577 }"),
    Deed::Demote,
    Deed::Commit(6, Setting::On, "NotPrimary"),
    Deed::Commit(6, Setting::Local, "NotPrimary"),
    Deed::Promote,
    Deed::Commit(
        6,
        Setting::On,
        "acknowledged at 0/10000E8, Flush 0/10000E8 met by 0",
    ),
    Deed::Stop,
    Deed::Commit(6, Setting::On, "Cancelled { end: Lsn(16777480) }"),
    Deed::Commit(6, Setting::Local, "acknowledged at 0/1000128"),
];

#[test]
fn commits_at_each_setting(rt: HostRuntime) -> Result<(), Fail> {
    let Some(mut pass) = begun(rt.alloc()) else {
        return Err("no node is made".into());
    };
    try_all(&rt, rt.alloc(), &mut pass)?;
    Ok(())
}

/// A hub of a new primary.
fn begun(alloc: Global) -> Option<SoloPass<MemoryDisk>> {
    let disk = MemoryDisk::new(alloc, Vec::new(alloc));
    let ident = Ident {
        sysid: 7,
        magic: 0xd116,
        size: version_1_size(),
    };
    match Node::init(alloc, disk, ident, Role::Primary) {
        Ok(node) => Some(SoloPass {
            state: HubState::new(alloc, node),
        }),
        Err(_) => None,
    }
}

fn try_all(
    rt: &(impl Abort + Wait),
    alloc: Global,
    pass: &mut SoloPass<MemoryDisk>,
) -> Result<(), AllocError> {
    for deed in &DEEDS {
        match deed {
            Deed::Commit(length, setting, told) => {
                let line = commit(rt, alloc, pass, *length, *setting)?;
                assert_eq!(rt; line.as_str(), *told);
            }
            Deed::Demote => act(rt, pass, HubEvent::Demote),
            Deed::Promote => act(rt, pass, HubEvent::Promote(0)),
            Deed::Stop => act(rt, pass, HubEvent::Stop),
        }
    }
    Ok(())
}

/// Makes an event.
fn act<R: Wait>(rt: &R, pass: &mut SoloPass<MemoryDisk>, event: HubEvent) {
    let hub: SoloHub<MemoryDisk> = SoloHub::new();
    let _ = hub.act(rt, pass, event);
}

/// Commits a record whose body has so many bytes, and says what becomes of it.
fn commit<R: Wait>(
    rt: &R,
    alloc: Global,
    pass: &mut SoloPass<MemoryDisk>,
    length: usize,
    setting: Setting,
) -> Result<String, AllocError> {
    let item = RecordIn {
        xid: 0,
        info: 0,
        rmid: 0,
        body: Bytes::from_vec(vec![in alloc; 0; length]?)?,
    };
    let hub: SoloHub<MemoryDisk> = SoloHub::new();
    line_of(alloc, &commit_on(rt, &hub, pass, item, setting))
}

fn line_of(alloc: Global, told: &Result<Acked, CommitFault>) -> Result<String, AllocError> {
    match told {
        Ok(acked) => match &acked.proof {
            None => format!(in alloc; "acknowledged at {}", acked.end),
            Some(proof) => format!(in alloc;
                "acknowledged at {}, {:?} {} met by {}",
                acked.end,
                proof.mode,
                proof.end,
                proof.counted.as_slice().len()
            ),
        },
        Err(fault) => format!(in alloc; "{fault:?}"),
    }
}
