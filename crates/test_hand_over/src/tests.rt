//! Values that are made in one thread, read in two at once, and used again.
ghost use Rattle.std.specs.Prelude.{◌≡◌, IfOk, Ok};

use crate::{hand_disk, hand_store, there_and_back};
use bytes::Bytes;
use repl_control::{Role, version_1_size};
use repl_disk::MemoryDisk;
use repl_lsn::{Lsn, Tli, history_text, parse_history};
use repl_message::{EncodeFault, Front, encode_front};
use repl_names::{parse_names, print_names};
use repl_page::Ident;
use repl_store::{Store, StoreFault};
use std::alloc::Global;
use std::test::*;
use std::thread::join;

const HISTORY: &[u8] = b"1\t0/3000000\tlost\n";

const LIST: &[u8] = b"ANY 2 (\"a\", *)";

const MESSAGE: &[u8] = b"d\0\0\0\x07log";

/// Two threads print the same of a history.
#[test]
fn a_history(rt: HostRuntime) -> Result<(), Fail> {
    let alloc = rt.alloc();
    let history = there_and_back(&rt, parse_history(alloc, Tli(2), HISTORY)?);
    let lent = &history;
    let (there, here) = join(
        &rt,
        || history_text(alloc, lent),
        || history_text(alloc, lent),
    );
    assert_eq!(rt; there?.as_slice(), HISTORY);
    assert_eq!(rt; here?.as_slice(), HISTORY);
    Ok(())
}

/// Two threads print the same of a list of standbys.
#[test]
fn a_list(rt: HostRuntime) -> Result<(), Fail> {
    let alloc = rt.alloc();
    let list = there_and_back(&rt, parse_names(alloc, LIST)?);
    let lent = &list;
    let (there, here) = join(
        &rt,
        || print_names(alloc, lent),
        || print_names(alloc, lent),
    );
    assert_eq!(rt; there?.as_slice(), LIST);
    assert_eq!(rt; here?.as_slice(), LIST);
    Ok(())
}

/// Two threads spell the same of a message, whose bytes they share.
#[test]
fn a_message(rt: HostRuntime) -> Result<(), Fail> {
    let alloc = rt.alloc();
    let bytes = Bytes::copy_from_slice(alloc, b"log")?;
    let message = there_and_back(&rt, Front::CopyData(bytes));
    let lent = &message;
    let (there, here) = join(&rt, || spelled(alloc, lent), || spelled(alloc, lent));
    assert_eq!(rt; there?.as_slice(), MESSAGE);
    assert_eq!(rt; here?.as_slice(), MESSAGE);
    Ok(())
}

/// The message, spelled.
fn spelled(alloc: Global, message: &Front) -> Result<Vec<u8>, EncodeFault> {
    let mut out = Vec::new(alloc);
    encode_front(message, &mut out)?;
    Ok(out)
}

/// A store is written in another thread, and two threads see how far.
#[test]
fn a_store(rt: HostRuntime) -> Result<(), Fail> {
    let alloc = rt.alloc();
    let ident = Ident {
        sysid: 7,
        magic: 0xd116,
        size: version_1_size(),
    };
    let disk = hand_disk(&rt, MemoryDisk::new(alloc, Vec::new(alloc)));
    let store = made(Store::create(alloc, disk, ident, Role::Primary))?;
    let (written, ()) = join(&rt, move || written(alloc, store), || ());
    let store = hand_store(&rt, written?);
    let lent = &store;
    let (there, here) = join(&rt, || lent.status(), || lent.status());
    assert_eq!(rt; there.written, Lsn(0x100_0003));
    assert_eq!(rt; here, there);
    Ok(())
}

/// The store, without the disk where it was refused.
fn made(
    answer: Result<Store<MemoryDisk>, (StoreFault, MemoryDisk)>,
) -> Result<Store<MemoryDisk>, StoreFault>
    ensures { IfOk result (λ store. answer ≡ Ok store) }
{
    match answer {
        Ok(store) => Ok(store),
        Err((fault, _)) => Err(fault),
    }
}

/// The store, with three bytes more.
fn written(alloc: Global, store: Store<MemoryDisk>) -> Result<Store<MemoryDisk>, StoreFault> {
    let mut store = store;
    let room = store.status().written.0;
    if room < 0x1000_0000 {
        store.write(alloc, b"log")?;
    }
    Ok(store)
}
