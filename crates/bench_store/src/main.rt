//! What bench/store.sh and bench/check.sh time: the log of a store in a folder, written in large pieces, and one of records.
//!
//! `bench_store FOLDER MIB` makes a store in the folder, which is there and has none, writes so many MiB of zeros in
//! pieces of 128 KiB, makes them certain after each 128 pieces, and prints up to which position they are. With `records` as
//! a third word it appends records with bodies of 8 KiB instead, as many as fit so many MiB in whole segments of 16, and
//! makes them certain after each segment's. Without the first two words it writes nothing, and prints the position 0/0.
#![tactic(auto)]

mod records;

ghost use Rattle.std.specs.Prelude.{◌+◌, ◌^◌, ◌≤◌, ◌≡◌};

use repl_control::{Role, version_1_size};
use repl_disk::{Disk, FolderDisk};
use repl_lsn::Lsn;
use repl_page::Ident;
use repl_store::Store;
use std::alloc::{AllocGlobal, Global};
use std::env;
use std::process::ExitCode;
use std::rt::Env;

/// How many bytes are written at once: as many as a message of the log carries at most.
const PIECE: usize = 131_072;

/// How many pieces are written between two flushes: a segment of 16 MiB.
const PIECES_A_FLUSH: u64 = 128;

const PIECES_A_MIB: u64 = 8;

const MIB_A_SEGMENT: u64 = 16;

/// No more is written than up to here.
const LIMIT: Lsn = Lsn(1 << 62);

fn main(rt: HostRuntime) -> ExitCode {
    let end = match filled(rt) {
        Some(end) => end,
        None => Lsn(0),
    };
    match println!(rt; "flushed up to {end}") {
        Ok(()) => ExitCode::SUCCESS,
        Err(_) => ExitCode::FAILURE,
    }
}

/// Makes the store that the words of the command line name, fills it, and answers its flushed end.
fn filled(rt: HostRuntime) -> Option<Lsn> {
    let mut words = env::args(&rt).ok()?.skip(1);
    let folder = words.next()?;
    let mib = words.next()?.as_str().parse::<u64>().ok()?;
    let disk = FolderDisk::new(rt, folder.as_str()).ok()?;
    let ident = Ident {
        sysid: 7,
        magic: 0xd116,
        size: version_1_size(),
    };
    let of_records = match words.next() {
        Some(word) => word.as_str() == "records",
        None => false,
    };
    let Ok(mut store) = Store::create(rt.alloc(), disk, ident, Role::Standby) else {
        return None;
    };
    if of_records {
        records::fill(rt.alloc(), &mut store, mib / MIB_A_SEGMENT)
    } else {
        fill(rt.alloc(), &mut store, mib.saturating_mul(PIECES_A_MIB))
    }
}

/// Writes so many pieces, and makes them certain after each segment and at the end.
fn fill<D: Disk>(alloc: Global, store: &mut Store<D>, pieces: u64) -> Option<Lsn> {
    let piece = vec![in alloc; 0u8; PIECE].ok()?;
    for number in 0..pieces {
        if store.status().written.0 >= LIMIT.0 {
            return None;
        }
        store.write(alloc, &piece).ok()?;
        if number % PIECES_A_FLUSH == PIECES_A_FLUSH - 1 {
            flush(store)?;
        }
    }
    flush(store)?;
    Some(store.status().flushed)
}

/// Makes all that was written certain. No record is whole, since a standby may stop within one.
fn flush<D: Disk>(store: &mut Store<D>) -> Option<()> {
    let status = store.status();
    store
        .set_role(Role::Standby, status.whole, status.prev)
        .ok()
}
