use repl_disk::{Disk, DiskError, FolderDisk, replace};
use std::alloc::{AllocError, Global};
use std::fs;
use std::os::unix::fs::MetadataExt;
use std::process::Abort;
use std::test::*;

/// A call of a disk.
enum Ask {
    Size(&'static str),
    Read(&'static str, u64, usize),
    Write(&'static str, u64, &'static [u8]),
    Sync(&'static str),
    Rename(&'static str, &'static str),
    Remove(&'static str),
    Names,
    Replace(&'static str, &'static [u8]),
}

/// Calls, and how each is answered in a folder without files.
const SCRIPT: [(Ask, &str); 35] = [
    (Ask::Names, "[]"),
    (Ask::Size("a"), "Missing"),
    (Ask::Sync("a"), "Missing"),
    (Ask::Remove("a"), "Missing"),
    (Ask::Rename("a", "b"), "Missing"),
    (Ask::Read("a", 0, 1), "Missing"),
    (Ask::Write("a", 0, b"abc"), "done"),
    (Ask::Write("a", 5, b"f"), "done"),
    (Ask::Write("a", 1, b"B"), "done"),
    (Ask::Size("a"), "6"),
    // The gap is zeros, and the room past the end stays.
    (Ask::Read("a", 0, 8), "6 [97, 66, 99, 0, 0, 102, 45, 45]"),
    (Ask::Read("a", 4, 1), "1 [0]"),
    (Ask::Read("a", 6, 1), "0 [45]"),
    (Ask::Read("a", 9, 1), "0 [45]"),
    (Ask::Sync("a"), "done"),
    (Ask::Write("b", 0, b"other"), "done"),
    (Ask::Rename("a", "b"), "done"),
    (Ask::Size("a"), "Missing"),
    (Ask::Read("b", 0, 6), "6 [97, 66, 99, 0, 0, 102]"),
    (Ask::Write("C", 0, b""), "done"),
    (Ask::Write("b.x", 2, b"1"), "done"),
    (Ask::Write("10", 0, b"1"), "done"),
    (Ask::Sync("C"), "done"),
    (Ask::Names, "[\"10\", \"C\", \"b\", \"b.x\"]"),
    (Ask::Remove("b"), "done"),
    (Ask::Remove("b"), "Missing"),
    (Ask::Write("C.tmp", 0, b"stale and long"), "done"),
    (Ask::Replace("C", b"new"), "done"),
    (Ask::Replace("10", b""), "done"),
    (Ask::Read("C", 0, 4), "3 [110, 101, 119, 45]"),
    (Ask::Size("10"), "0"),
    (Ask::Write("10", 2, b""), "done"),
    (Ask::Read("10", 0, 3), "2 [0, 0, 45]"),
    (Ask::Read("b.x", 0, 3), "3 [0, 0, 49]"),
    (Ask::Names, "[\"10\", \"C\", \"b.x\"]"),
];

/// The call as a file's name, by which a trace of the system's calls shows where it begins.
fn mark(alloc: Global, ask: &Ask) -> Result<String, AllocError> {
    match ask {
        Ask::Size(name) => format!(in alloc; "mark size {name}"),
        Ask::Read(name, ..) => format!(in alloc; "mark read {name}"),
        Ask::Write(name, ..) => format!(in alloc; "mark write {name}"),
        Ask::Sync(name) => format!(in alloc; "mark sync {name}"),
        Ask::Rename(from, to) => format!(in alloc; "mark rename {from} {to}"),
        Ask::Remove(name) => format!(in alloc; "mark remove {name}"),
        Ask::Names => format!(in alloc; "mark names"),
        Ask::Replace(name, _) => format!(in alloc; "mark replace {name}"),
    }
}

/// Makes the call, and says how it was answered.
fn answer<D: Disk>(alloc: Global, disk: &mut D, ask: &Ask) -> Result<String, AllocError> {
    match ask {
        Ask::Size(name) => match disk.size(name) {
            Ok(size) => format!(in alloc; "{size}"),
            Err(error) => format!(in alloc; "{error:?}"),
        },
        Ask::Read(name, at, room) => {
            let mut room = vec![in alloc; b'-'; *room]?;
            match disk.read_at(name, *at, &mut room) {
                Ok(count) => format!(in alloc; "{count} {room:?}"),
                Err(error) => format!(in alloc; "{error:?}"),
            }
        }
        Ask::Write(name, at, bytes) => done(alloc, disk.write_at(name, *at, bytes)),
        Ask::Sync(name) => done(alloc, disk.sync(name)),
        Ask::Rename(from, to) => done(alloc, disk.rename(from, to)),
        Ask::Remove(name) => done(alloc, disk.remove(name)),
        Ask::Names => match disk.names() {
            Ok(names) => format!(in alloc; "{names:?}"),
            Err(error) => format!(in alloc; "{error:?}"),
        },
        Ask::Replace(name, bytes) => done(alloc, replace(alloc, disk, name, bytes)),
    }
}

fn done(alloc: Global, answer: Result<(), DiskError>) -> Result<String, AllocError> {
    match answer {
        Ok(()) => format!(in alloc; "done"),
        Err(error) => format!(in alloc; "{error:?}"),
    }
}

/// The disk answers the script as it is written.
fn check_script<D: Disk>(rt: &impl Abort, alloc: Global, disk: &mut D) -> Result<(), AllocError> {
    for (ask, expected) in &SCRIPT {
        let _none = disk.size(&mark(alloc, ask)?);
        assert_eq!(rt; answer(alloc, disk, ask)?.as_str(), *expected);
    }
    Ok(())
}

/// The script's files, as they are left.
const LEFT: [(&str, &[u8]); 3] = [
    ("disk_files/10", b"\0\0"),
    ("disk_files/C", b"new"),
    ("disk_files/b.x", b"\0\01"),
];

/// A folder answers the script, and then has its files, for their owner alone. Opening it again changes nothing.
#[test]
fn a_folder_follows_the_script(rt: HostRuntime) -> Result<(), Fail> {
    fs::create_dir(&rt, "disk_files")?;
    let mut disk = FolderDisk::new(rt, "disk_files")?;
    check_script(&rt, rt.alloc(), &mut disk)?;
    let _none = disk.size("mark open");
    let _again = FolderDisk::new(rt, "disk_files")?;
    for (path, bytes) in LEFT {
        assert_eq!(rt; fs::read(&rt, path)?.as_slice(), bytes);
        assert_eq!(rt; fs::metadata(&rt, path)?.mode() & 0o777, 0o600);
        fs::remove_file(&rt, path)?;
    }
    fs::remove_dir(&rt, "disk_files")?;
    Ok(())
}

/// Pieces of 1 MiB, and two bytes over the edge of the last.
const PIECES: u64 = 5;

#[test]
fn a_file_above_four_mebibytes(rt: HostRuntime) -> Result<(), Fail> {
    fs::create_dir(&rt, "large_files")?;
    let mut disk = FolderDisk::new(rt, "large_files")?;
    let piece = vec![in rt.alloc(); 7; 1 << 20]?;
    for place in 0..PIECES {
        assert_eq!(rt; disk.write_at("big", place << 20, &piece), Ok(()));
    }
    let edge = (PIECES - 1) << 20;
    assert_eq!(rt; disk.write_at("big", edge - 1, b"ab"), Ok(()));
    let mut room = [0; 4];
    assert_eq!(rt; disk.read_at("big", edge - 2, &mut room), Ok(4));
    assert_eq!(rt; room, *b"\x07ab\x07");
    assert_eq!(rt; disk.size("big"), Ok(PIECES << 20));
    assert_eq!(rt; disk.remove("big"), Ok(()));
    fs::remove_dir(&rt, "large_files")?;
    Ok(())
}

/// Without a name it is the folder that the program runs in, and not the root; and a folder may not be there.
#[test]
fn other_folders(rt: HostRuntime) -> Result<(), Fail> {
    let mut disk = FolderDisk::new(rt, "")?;
    assert_eq!(rt; disk.write_at("disk_file", 0, b"a"), Ok(()));
    assert_eq!(rt; fs::read(&rt, "./disk_file")?.as_slice(), b"a".as_slice());
    assert_eq!(rt; disk.remove("disk_file"), Ok(()));
    assert_eq!(rt;
        FolderDisk::new(rt, "nowhere").err(),
        Some(DiskError::Missing)
    );
    Ok(())
}
