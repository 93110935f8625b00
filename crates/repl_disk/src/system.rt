//! The files of a folder of the operating system, by its calls. No contract says what they hold, so these lines are
//! trusted.
ghost use Rattle.std.specs.Prelude.{◌≤◌, length, IfOk};

use std::fs::{self, File};
use std::io::{self, ErrorKind};
use std::os::unix::fs::{FileExt, OpenOptionsExt};
use std::rt::Files;

/// Who made a file may read and write it, and no one else.
const OWN_FILE: u32 = 0o600;

/// A folder's files. Some stay open: the last two that were written, and the last that was read.
#[derive(Drop)]
pub(crate) struct Folder<R: Files<File = File> + AllocGlobal + Clone + Drop> {
    rt: R,
    /// The folder's path, with a slash after it.
    path: String,
    written: Option<Opened>,
    written_before: Option<Opened>,
    read: Option<Opened>,
    /// A name came, went or changed, and the folder was not synced since.
    names_changed: bool,
}

/// A file that stays open.
#[derive(Drop)]
struct Opened {
    name: String,
    file: File,
}

/// The file that stays open here, if it has that name.
fn file_of<'a>(opened: &'a Option<Opened>, name: &str) -> Option<&'a File> {
    match opened {
        Some(opened) if opened.name.as_str() == name => Some(&opened.file),
        _ => None,
    }
}

/// Closes the file that stays open here, if it has that name.
fn close(opened: &mut Option<Opened>, name: &str) {
    if file_of(opened, name).is_some() {
        *opened = None;
    }
}

impl<R: Files<File = File> + AllocGlobal + Clone + Drop> Folder<R> {
    /// The files of this folder. All that is read there is certain then, whoever wrote it: each file is synced, and the
    /// folder after them.
    pub(crate) fn open(rt: R, folder: &str) -> io::Result<Folder<R>> {
        let path = format!(in rt.alloc(); "{folder}/")?;
        let mut folder = Folder {
            rt,
            path,
            written: None,
            written_before: None,
            read: None,
            names_changed: true,
        };
        for name in &folder.names()? {
            folder.open_to_read(name.as_str())?.sync_data()?;
        }
        folder.sync_names()?;
        Ok(folder)
    }

    fn path_of(&self, name: &str) -> io::Result<String> {
        let folder = self.path.as_str();
        Ok(format!(in self.rt.alloc(); "{folder}{name}")?)
    }

    fn open_to_read(&self, name: &str) -> io::Result<File> {
        let path = self.path_of(name)?;
        File::open(&self.rt, path.as_str())
    }

    /// Opens the file, or makes it where it is not there.
    fn open_to_write(&mut self, name: &str) -> io::Result<File> {
        let path = self.path_of(name)?;
        match File::options().write(true).open(&self.rt, path.as_str()) {
            Err(error) if error.kind() == ErrorKind::NotFound => {
                self.names_changed = true;
                File::options()
                    .write(true)
                    .create_new(true)
                    .mode(OWN_FILE)
                    .open(&self.rt, path.as_str())
            }
            opened => opened,
        }
    }

    /// Sees that the file is the one that was written last.
    fn hold_written(&mut self, name: &str) -> io::Result<()> {
        if file_of(&self.written, name).is_some() {
            return Ok(());
        }
        if file_of(&self.written_before, name).is_some() {
            std::mem::swap(&mut self.written, &mut self.written_before);
            return Ok(());
        }
        let file = self.open_to_write(name)?;
        let name = String::from_str(self.rt.alloc(), name)?;
        self.written_before = self.written.replace(Opened { name, file });
        Ok(())
    }

    /// Sees that the file is the one that was read last.
    fn hold_read(&mut self, name: &str) -> io::Result<()> {
        if file_of(&self.read, name).is_none() {
            let file = self.open_to_read(name)?;
            let name = String::from_str(self.rt.alloc(), name)?;
            self.read = Some(Opened { name, file });
        }
        Ok(())
    }

    fn close_all(&mut self, name: &str) {
        close(&mut self.written, name);
        close(&mut self.written_before, name);
        close(&mut self.read, name);
    }

    /// Makes certain which names there are, and what they name.
    pub(crate) fn sync_names(&mut self) -> io::Result<()> {
        File::open(&self.rt, self.path.as_str())?.sync_all()?;
        self.names_changed = false;
        Ok(())
    }

    pub(crate) fn size(&self, name: &str) -> io::Result<u64> {
        let path = self.path_of(name)?;
        Ok(fs::metadata(&self.rt, path.as_str())?.len())
    }

    pub(crate) fn read(&mut self, name: &str, at: u64, room: &mut [u8]) -> io::Result<usize>
        ensures { IfOk result (λ n. n ≤ length room.old) }
    {
        self.hold_read(name)?;
        match &self.read {
            Some(opened) => read_full(&opened.file, at, room),
            None => Err(ErrorKind::Other.into()),
        }
    }

    pub(crate) fn write(&mut self, name: &str, at: u64, bytes: &[u8]) -> io::Result<()> {
        self.hold_written(name)?;
        match &self.written {
            // The system does not lengthen a file by no bytes.
            Some(opened) if bytes.is_empty() => lengthen(&opened.file, at),
            Some(opened) => opened.file.write_all_at(bytes, at),
            None => Err(ErrorKind::Other.into()),
        }
    }

    /// Makes certain what was written into the file, and its name.
    pub(crate) fn sync(&mut self, name: &str) -> io::Result<()> {
        if let Some(file) = file_of(&self.written, name) {
            file.sync_data()?;
        } else if let Some(file) = file_of(&self.written_before, name) {
            file.sync_data()?;
        } else {
            self.open_to_read(name)?.sync_data()?;
        }
        if self.names_changed {
            self.sync_names()?;
        }
        Ok(())
    }

    /// Gives the file another name, which is certain once `sync_names` was done.
    pub(crate) fn rename(&mut self, from: &str, to: &str) -> io::Result<()> {
        self.close_all(from);
        self.close_all(to);
        let from = self.path_of(from)?;
        let to = self.path_of(to)?;
        self.names_changed = true;
        fs::rename(&self.rt, from.as_str(), to.as_str())
    }

    /// Removes the file, which is certain once `sync_names` was done.
    pub(crate) fn remove(&mut self, name: &str) -> io::Result<()> {
        self.close_all(name);
        let path = self.path_of(name)?;
        self.names_changed = true;
        fs::remove_file(&self.rt, path.as_str())
    }

    /// The names of the regular files, by their bytes. A name that is not UTF-8 is no name of a disk's file.
    pub(crate) fn names(&self) -> io::Result<Vec<String>> {
        let mut names = Vec::new(self.rt.alloc());
        for entry in fs::read_dir(&self.rt, self.path.as_str())? {
            match entry {
                Ok(entry) if entry.file_type()?.is_file() => {
                    names.push(String::from_str(self.rt.alloc(), entry.file_name())?)?;
                }
                Ok(_) => {}
                Err(error) if error.kind() == ErrorKind::InvalidFilename => {}
                Err(error) => return Err(error),
            }
        }
        names.sort()?;
        Ok(names)
    }
}

/// Adds zeros up to this place, if the file ends before it.
fn lengthen(file: &File, at: u64) -> io::Result<()> {
    if file.metadata()?.len() < at {
        file.set_len(at)?;
    }
    Ok(())
}

/// Reads up to the room's length or the file's end.
fn read_full(file: &File, at: u64, room: &mut [u8]) -> io::Result<usize>
    ensures { IfOk result (λ n. n ≤ length room.old) }
{
    let mut count = 0;
    while count < room.len() {
        let place = at.saturating_add(count as u64);
        let read = file.read_at(&mut room[count..], place)?;
        if read == 0 {
            break;
        }
        count += read;
    }
    Ok(count)
}
