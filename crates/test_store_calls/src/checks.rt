//! Whether a store may be written, read and flushed, and its floor raised.
ghost use Rattle.std.specs.Prelude.{◌≡◌, ◌≤◌, ◌+◌, ◌^◌, ◌↔◌, IsTrue};
ghost use Rattle.repl_lsn.specs.Between.{AreBetween};
ghost use Rattle.repl_store.specs.Backing.{CanFlush, CanRaise};

use repl_control::{Control, Role};
use repl_disk::Disk;
use repl_lsn::{History, Lsn};
use repl_store::Store;

/// Where the log may end at most.
const END: u64 = 1 << 63;

/// The control of the store.
pub(crate) fn control<D: Disk>(store: &Store<D>) -> Control
    ensures { result ≡ store.now.head.control }
{
    let status = store.status();
    Control {
        role: status.role,
        sysid: status.sysid,
        tli: status.tli,
        magic: status.ident.magic,
        flushed: status.flushed,
        whole: status.whole,
        floor: status.floor,
        prev: status.prev,
    }
}

/// Whether so many bytes may be written.
pub fn can_write<D: Disk>(store: &Store<D>, count: usize) -> bool
    ensures { IsTrue result ↔ store.now.head.written + count ≤ 2 ^ 63 }
{
    let written = store.status().written.0;
    written <= END && count as u64 <= END - written
}

/// Whether so many bytes may be read from here on.
pub fn can_read<D: Disk>(store: &Store<D>, at: Lsn, count: usize) -> bool
    ensures { IsTrue result ↔ (store.now.head.control.floor ≤ at) × (at + count ≤ store.now.head.written) }
{
    let status = store.status();
    status.floor <= at && at <= status.written && count as u64 <= status.written.0 - at.0
}

/// Whether the store may be flushed so, in this role.
pub fn can_flush<D: Disk>(store: &Store<D>, role: Role, whole: Lsn, prev: Lsn) -> bool
    ensures { IsTrue result ↔ CanFlush store.now.head role whole prev }
{
    let status = store.status();
    let size = status.ident.size;
    let next = Control {
        role,
        flushed: status.written,
        whole,
        prev,
        ..control(store)
    };
    next.is_fit(size) && lies_within(store.path(), u64::from(size.bytes()), whole)
}

/// Whether the floor may be raised so far.
pub fn can_raise<D: Disk>(store: &Store<D>, floor: Lsn) -> bool
    ensures { IsTrue result ↔ CanRaise store.now.head floor }
{
    let status = store.status();
    let next = Control {
        floor,
        ..control(store)
    };
    status.floor <= floor && next.is_fit(status.ident.size)
}

/// Whether all switch points of the history lie between these two positions.
pub(crate) fn lies_within(history: &History, least: u64, most: Lsn) -> bool
    ensures { IsTrue result ↔ AreBetween least most history.now.parents }
{
    history
        .parents()
        .as_slice()
        .iter()
        .all(|part| least <= part.switch.0 && part.switch <= most)
}
