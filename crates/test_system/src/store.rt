//! A store over a folder of the system: what was written is there again when it is mounted.
ghost use Rattle.std.specs.Prelude.{◌≡◌, IfOk, Ok};

use repl_control::{Role, version_1_size};
use repl_disk::FolderDisk;
use repl_lsn::Lsn;
use repl_page::Ident;
use repl_store::{Store, StoreFault};
use std::fs;
use std::test::*;

/// Where a log begins, and where it ends that is written here.
const START: Lsn = Lsn(0x100_0000);

const END: Lsn = Lsn(0x100_0048);

/// The bytes between.
const WRITTEN: [u8; 72] = [b'a'; 72];

const FILES: [&str; 2] = [
    "store_files/000000010000000000000001",
    "store_files/control",
];

/// The store, without the disk where it was refused.
fn opened(
    answer: Result<Store<FolderDisk<HostRuntime>>, (StoreFault, FolderDisk<HostRuntime>)>,
) -> Result<Store<FolderDisk<HostRuntime>>, StoreFault>
    ensures { IfOk result (λ store. answer ≡ Ok store) }
{
    match answer {
        Ok(store) => Ok(store),
        Err((fault, _)) => Err(fault),
    }
}

/// A store over a folder reads the same when it is mounted again, by another disk over the same folder.
#[test]
fn a_store_in_a_folder(rt: HostRuntime) -> Result<(), Fail> {
    fs::create_dir(&rt, "store_files")?;
    let ident = Ident {
        sysid: 7,
        magic: 0xd116,
        size: version_1_size(),
    };
    let disk = FolderDisk::new(rt, "store_files")?;
    let mut store = opened(Store::create(rt.alloc(), disk, ident, Role::Primary))?;
    assert!(rt; store.write(rt.alloc(), &WRITTEN).is_ok());
    assert!(rt; store.flush(END, START).is_ok());
    let before = store.status();
    drop(store);
    let disk = FolderDisk::new(rt, "store_files")?;
    let mut store = opened(Store::mount(rt.alloc(), disk))?;
    let after = store.status();
    assert_eq!(rt; after, before);
    assert_eq!(rt; after.flushed, END);
    // A folder tells nothing of its files, so the range is looked at before it is read.
    assert!(rt; after.floor.0 <= START.0);
    assert!(rt; END.0 <= after.written.0);
    let mut room = [0; 72];
    assert!(rt; store.read_into(rt.alloc(), START, &mut room).is_ok());
    assert_eq!(rt; room, WRITTEN);
    for path in FILES {
        fs::remove_file(&rt, path)?;
    }
    fs::remove_dir(&rt, "store_files")?;
    Ok(())
}
