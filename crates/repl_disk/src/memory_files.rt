//! The files of a disk in memory, sorted by their names.
ghost use Rattle.std.specs.Prelude.{◌≡◌, ◌≤◌, ◌<◌, ◌+◌, ◌^◌, length, map, filter, is_some, false, string_bytes, IfOk, OnOk, OnErr, IsOk, IsSome, MatchOption, Some, None, vec_len, vec_capacity};
ghost use Rattle.repl_disk.specs.Stored.{is_kept, reverted, settled};
ghost use Rattle.repl_disk.specs.Files.{AreOrdered, Changed, file_after, folder_of, found, place_of};
ghost use Rattle.std.specs.Option.{option_map};

use crate::memory_file::File;
use std::alloc::{AllocError, Global};
use std::cmp::Ordering;

/// The place of the file with that name, or else the one where it would stand.
pub(crate) fn place_of(files: &[File], name: &str) -> Result<usize, usize>
    ensures { result ≡ place_of files.now name.now }
{
    for (place, file) in files.iter().enumerate() {
        match file.name().cmp(name) {
            Ordering::Less => {}
            Ordering::Equal => return Ok(place),
            Ordering::Greater => return Err(place),
        }
    }
    Err(files.len())
}

/// The file with that name.
pub(crate) fn find<'a>(files: &'a [File], name: &str) -> Option<&'a File>
    requires { AreOrdered files.now }
    ensures { MatchOption result (folder_of files.now name.now ≡ None) (λ file. folder_of files.now name.now ≡ Some file.now.bytes) }
{
    match place_of(files, name) {
        Ok(place) => files.get(place),
        Err(_) => None,
    }
}

/// Writes the bytes into the file with that name, or makes it.
pub(crate) fn write(
    alloc: Global,
    files: &mut Vec<File>,
    name: &str,
    at: usize,
    bytes: &[u8],
) -> Result<(), AllocError>
    requires ordered { AreOrdered files.old.items }
    requires end { at + length bytes.now < 2 ^ 64 }
    ensures ok { OnOk result (Changed files.old.items files.new.items name.now (Some (file_after (found files.old.items name.now) name.now at bytes.now))) }
    ensures err { OnErr result (files.new.items ≡ files.old.items) }
{
    match place_of(files, name) {
        Ok(place) => {
            files[place].write(alloc, at, bytes)?;
            Ok(())
        }
        Err(place) => {
            files.insert(place, File::made(alloc, name, at, bytes)?)?;
            Ok(())
        }
    }
}

/// Takes the file with that name out.
pub(crate) fn take(files: &mut Vec<File>, name: &str) -> Option<File>
    requires { AreOrdered files.old.items }
    ensures file { result ≡ found files.old.items name.now }
    ensures files { Changed files.old.items files.new.items name.now None }
    ensures none { result ≡ None → files.new.items ≡ files.old.items }
    ensures room { IsSome result → vec_len files.new < vec_capacity files.new }
{
    match place_of(files, name) {
        Ok(place) => Some(files.remove(place)),
        Err(_) => None,
    }
}

/// Puts the file among the others, in place of the one that had its name.
pub(crate) fn put(files: &mut Vec<File>, file: File) -> Result<(), AllocError>
    requires { AreOrdered files.old.items }
    ensures ok { OnOk result (Changed files.old.items files.new.items file.name (Some file)) }
    ensures succeeds { vec_len files.old < vec_capacity files.old → IsOk result }
{
    match place_of(files, file.name()) {
        Ok(place) => {
            files[place] = file;
            Ok(())
        }
        Err(place) => {
            files.insert(place, file)?;
            Ok(())
        }
    }
}

/// Makes certain what was written into the file with that name, and answers whether it is there.
pub(crate) fn settle(files: &mut Vec<File>, name: &str) -> bool
    requires { AreOrdered files.old.items }
    ensures there { result ≡ is_some (found files.old.items name.now) }
    ensures files { Changed files.old.items files.new.items name.now (option_map settled (found files.old.items name.now)) }
    ensures none { result ≡ false → files.new.items ≡ files.old.items }
{
    match place_of(files, name) {
        Ok(place) => {
            files[place].settle();
            true
        }
        Err(_) => false,
    }
}

/// Makes certain what was written.
pub(crate) fn settle_all(files: &mut Vec<File>)
    ensures { files.new.items ≡ map settled files.old.items }
{
    for file in files.iter_mut() {
        file.settle();
    }
}

/// Leaves of the files what is certain. Takes no memory.
pub(crate) fn revert_all(files: &mut Vec<File>)
    ensures { files.new.items ≡ map reverted (filter is_kept files.old.items) }
{
    files.retain(|file| !file.is_made());
    revert_each(files);
}

fn revert_each(files: &mut Vec<File>)
    ensures { files.new.items ≡ map reverted files.old.items }
{
    for file in files.iter_mut() {
        file.revert();
    }
}

/// The names of the files.
pub(crate) fn names(alloc: Global, files: &[File]) -> Result<Vec<String>, AllocError>
    ensures { IfOk result (λ names. map string_bytes names.items ≡ map (λ file. file.name) files.now) }
{
    let mut names = Vec::with_capacity(alloc, files.len())?;
    for file in files {
        names.push(String::from_str(alloc, file.name())?)?;
    }
    Ok(names)
}
