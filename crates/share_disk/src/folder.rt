//! The folder, and its lock.
ghost use Rattle.std.specs.Prelude.{◌≡◌, string_bytes, IfOk};
ghost use Rattle.share_disk.specs.Paths.{path_to, path_of};

use crate::files::is_there;
use share_catalog::{BookFile, FileKind, file_name};
use std::alloc::Global;
use std::fs::{File, Files, TryLockError};
use std::io::ErrorKind;
use std::marker::Model;
use std::{fs, io, str};

/// Why a folder was not opened.
#[derive(Debug, Drop)]
pub enum NotOpened {
    /// Another process has it open.
    Locked,
    /// It is no folder.
    NotFolder,
    /// A call of the system failed, or memory was refused.
    Failed(io::Error),
}

/// A folder of books. It is locked as long as the value lives, so that no other gateway opens it. A contract sees its
/// path.
#[derive(Drop)]
pub struct Folder {
    // The open folder, which has the lock.
    handle: File,
    path: String,
}

impl Model for Folder {
    ghost use Rattle.std.specs.Prelude.{ℕ, List, string_bytes};

    ghost Value = { List ℕ };

    ghost view = { λ folder. string_bytes folder.path };
}

impl Folder {
    /// Opens the folder of this path, and locks it.
    pub fn open<R: Files<File = File>>(
        rt: &R,
        alloc: Global,
        path: &str,
    ) -> Result<Folder, NotOpened>
        ensures { IfOk result (λ folder. folder ≡ path.now) }
    {
        let handle = open_locked(rt, path)?;
        match String::from_str(alloc, path) {
            Ok(path) => Ok(Folder { handle, path }),
            Err(refused) => Err(NotOpened::Failed(io::Error::from(refused))),
        }
    }

    /// The path of the folder, as it was given.
    pub fn path(&self) -> &str
        ensures { result.now ≡ self.now }
    {
        self.path.as_str()
    }

    // The path of a name in the folder.
    pub(crate) fn path_to(&self, alloc: Global, name: &str) -> io::Result<String>
        ensures { IfOk result (λ path. string_bytes path ≡ path_to self.now name.now) }
    {
        let mut path = String::from_str(alloc, self.path.as_str())?;
        path.push_str("/")?;
        path.push_str(name)?;
        Ok(path)
    }

    // The path of a file of a book.
    pub(crate) fn path_of(&self, alloc: Global, number: u64, kind: FileKind) -> io::Result<String>
        ensures { IfOk result (λ path. string_bytes path ≡ path_of self.now number kind) }
    {
        let name = file_name(BookFile { number, kind });
        match str::from_utf8(name.as_bytes()) {
            Ok(name) => self.path_to(alloc, name),
            Err(_) => Err(io::Error::from(ErrorKind::InvalidFilename)),
        }
    }

    // Whether a book has a file of this kind.
    pub(crate) fn has<R: Files<File = File>>(
        &self,
        rt: &R,
        alloc: Global,
        number: u64,
        kind: FileKind,
    ) -> io::Result<bool> {
        let path = self.path_of(alloc, number, kind)?;
        is_there(rt, path.as_str())
    }

    // Makes the names of the folder durable.
    pub(crate) fn sync(&self) -> io::Result<()> {
        self.handle.sync_all()
    }
}

// Opens a folder, and locks it.
fn open_locked<R: Files<File = File>>(rt: &R, path: &str) -> Result<File, NotOpened> {
    let handle = match fs::open(rt, path) {
        Ok(handle) => handle,
        Err(fault) => return Err(NotOpened::Failed(fault)),
    };
    match handle.metadata() {
        Ok(found) => {
            if !found.is_dir() {
                return Err(NotOpened::NotFolder);
            }
        }
        Err(fault) => return Err(NotOpened::Failed(fault)),
    }
    match handle.try_lock() {
        Ok(()) => Ok(handle),
        Err(TryLockError::WouldBlock) => Err(NotOpened::Locked),
        Err(TryLockError::Error(fault)) => Err(NotOpened::Failed(fault)),
    }
}
