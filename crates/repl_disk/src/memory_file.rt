//! A file of a disk in memory.
ghost use Rattle.std.specs.Prelude.{◌≡◌, ℕ, ◌+◌, ◌-◌, ◌^◌, ◌<◌, ◌≤◌, ◌++◌, min, take, drop, OnOk, OnErr, IfOk, length, string_bytes};
ghost use Rattle.repl_disk.specs.Stored.{fresh, rewritten, settled, reverted, renamed};

use crate::bytes::overwrite;
use crate::undo::Undo;
use std::alloc::{AllocError, Global};
use std::marker::Model;

/// A file as it reads, and how to take back what was written into it since its last sync.
#[derive(Drop)]
pub(crate) struct File {
    name: String,
    bytes: Vec<u8>,
    /// It was made since its last sync.
    made: bool,
    /// The latest write comes last.
    undos: Vec<Undo>,
}

impl Model for File {
    ghost use Rattle.std.specs.Prelude.{reverse, string_bytes};
    ghost use Rattle.repl_disk.specs.Stored.{Stored, AreWithin};

    ghost Value = { Stored };

    ghost view = { λ f. record { name = string_bytes f.name; bytes = f.bytes.items; made = f.made; undos = reverse f.undos.items } };

    ghost invariant = { λ f. AreWithin (reverse f.undos.items) f.bytes.items };
}

impl File {
    /// A file that this first write makes.
    pub(crate) fn made(
        alloc: Global,
        name: &str,
        at: usize,
        bytes: &[u8],
    ) -> Result<File, AllocError>
        requires { at + length bytes.now < 2 ^ 64 }
        ensures { IfOk result (λ file. file ≡ fresh name.now at bytes.now) }
    {
        let name = String::from_str(alloc, name)?;
        let mut content = Vec::new(alloc);
        overwrite(&mut content, at, bytes)?;
        Ok(File {
            name,
            bytes: content,
            made: true,
            undos: Vec::new(alloc),
        })
    }

    pub(crate) fn name(&self) -> &str
        ensures { result.now ≡ self.now.name }
    {
        &self.name
    }

    /// It was made since its last sync.
    pub(crate) fn is_made(&self) -> bool
        ensures { result ≡ self.now.made }
    {
        self.made
    }

    /// How many bytes it has.
    pub(crate) fn size(&self) -> usize
        ensures { result ≡ length self.now.bytes }
    {
        self.bytes.len()
    }

    /// Copies the bytes from `at` on into the front of `room`, up to the room's length or the file's end, and answers how
    /// many they are.
    pub(crate) fn read(&self, at: u64, room: &mut [u8]) -> usize
        ensures count { result ≡ min (length room.old) (length self.now.bytes - at) }
        ensures room { room.new ≡ take result (drop at self.now.bytes) ++ drop result room.old }
    {
        let start = at.min(self.bytes.len() as u64) as usize;
        let rest = &self.bytes[start..];
        let count = room.len().min(rest.len());
        room[..count].copy_from_slice(&rest[..count]);
        count
    }

    /// Writes the bytes from `at` on, and keeps how to take that back.
    pub(crate) fn write(&mut self, alloc: Global, at: usize, bytes: &[u8]) -> Result<(), AllocError>
        requires { at + length bytes.now < 2 ^ 64 }
        ensures ok { OnOk result (self.new ≡ rewritten self.old at bytes.now) }
        ensures err { OnErr result (self.new ≡ self.old) }
    {
        let undo = Undo::of(alloc, &self.bytes, at, bytes.len())?;
        self.undos.reserve(1)?;
        overwrite(&mut self.bytes, at, bytes)?;
        self.undos.push_reserved(undo);
        Ok(())
    }

    /// Makes certain what was written, and lets go of how it is taken back. Takes no memory.
    pub(crate) fn settle(&mut self)
        ensures { self.new ≡ settled self.old }
    {
        self.made = false;
        self.undos.clear();
        self.undos.shrink_to_fit();
    }

    /// Takes the writes since the last sync back. Takes no memory.
    pub(crate) fn revert(&mut self)
        ensures { self.new ≡ reverted self.old }
    {
        self.made = false;
        while let Some(undo) = self.undos.pop() {
            undo.revert(&mut self.bytes);
        }
        self.undos.shrink_to_fit();
    }

    /// Gives it another name.
    pub(crate) fn rename(&mut self, name: String)
        ensures { self.new ≡ renamed self.old (string_bytes name) }
    {
        self.name = name;
    }
}
