//! Locks on folders and files, so that only one process writes there. A lock is on the open file or folder, but what
//! is written is opened by its path. If another folder or file takes the path, a second process can lock that one. So
//! every write first checks that what is locked is still at its path. The check and the write are two calls.

ghost use Rattle.std.specs.Prelude.{◌≡◌, true, [], ◌∷◌, IfOk, IsOk, OnOk};
ghost use Rattle.tl_folder.specs.Step as step;
ghost use Rattle.tl_folder.specs.FileCalls.{Begun};
ghost use Rattle.tl_folder.specs.Inner.Making.{MakesFolders};

use crate::file_id::FileId;
use crate::look::check_plain;
use crate::making::make_folders;
use crate::record::note_of;
use crate::system::{OpenedFile, SystemCalls};
use http_server::Log;
use std::fs::{File, Files, Metadata, OpenOptions};
use std::io;
use std::marker::Model;
use tl_device::DeviceFault;

/// A plain file that is open and locked.
#[derive(Drop)]
pub(crate) struct LockedFile {
    pub(crate) file: OpenedFile<File>,
    id: FileId,
}

impl LockedFile {
    /// Opens the file at this path with these options and locks it. `Busy` means that another process has it;
    /// `NotPlain` that something else than a plain file, such as a symbolic link, is there.
    pub(crate) fn open<H: Files<File = File>>(
        calls: &mut SystemCalls<H>,
        how: &OpenOptions,
        path: &str,
    ) -> Result<LockedFile, DeviceFault>
        ensures { Begun (step.Create path.now ∷ []) calls.old calls.new result }
    {
        check_plain(calls.symlink_metadata(path))?;
        let file = calls.create(how, path)?;
        file.lock()?;
        let id = FileId::of(&file.metadata()?);
        let locked = LockedFile { file, id };
        locked.check_at(calls.symlink_metadata(path))?;
        Ok(locked)
    }

    /// Fails with `Moved` if the file is no longer at a path, given the path's metadata.
    pub(crate) fn check_at(&self, told: io::Result<Metadata>) -> Result<(), DeviceFault>
        ensures { OnOk result (IsOk told) }
    {
        self.id.check(told)
    }
}

/// A lock on a folder. It is released when it is dropped, or when the process ends in any way. Contracts see the path
/// by which the folder was locked.
#[derive(Drop)]
pub struct FolderLock {
    folder: OpenedFile<File>,
    place: Log<(), u8>,
}

impl Model for FolderLock {
    ghost use Rattle.tl_folder.specs.Events.{noted};
    ghost use Rattle.tl_folder.specs.Opened as seen;

    ghost Value = { seen.Locked };

    ghost view = { λ l. record { place = noted l.place } };
}

impl FolderLock {
    // Reports whether this is the metadata of the locked folder.
    fn is_told(&self, told: io::Result<Metadata>) -> bool {
        let Ok(metadata) = self.folder.metadata() else {
            return false;
        };
        FileId::of(&metadata).check(told).is_ok()
    }

    /// Reports whether the folder at this path, with links followed, is the locked one.
    pub fn is_at<H: Files>(&self, files: &H, path: &str) -> bool {
        self.is_told(files.metadata(path))
    }
}

// Locks the folder at this path, which is made if it isn't there.
fn lock_by<H: Files<File = File>>(
    calls: &mut SystemCalls<H>,
    path: &str,
) -> Result<FolderLock, DeviceFault>
    ensures place { IfOk result (λ lock. lock.place ≡ path.now) }
    ensures calls { MakesFolders true path.now
        calls.old calls.new result }
{
    make_folders(calls, path, true)?;
    let folder = calls.open_folder(path)?;
    folder.lock()?;
    let lock = FolderLock {
        folder,
        place: note_of(path.as_bytes()),
    };
    if !lock.is_told(calls.metadata(path)) {
        return Err(DeviceFault::Moved);
    }
    Ok(lock)
}

/// Locks the folder at this path, which is made if it isn't there. `Busy` means that another process has it; `Moved`
/// that another folder took the path meanwhile.
pub fn lock_folder<H: Files<File = File>>(files: &H, path: &str) -> Result<FolderLock, DeviceFault>
    ensures { IfOk result (λ lock. lock.place ≡ path.now) }
{
    lock_by(&mut SystemCalls::new(files), path)
}
