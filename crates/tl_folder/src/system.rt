//! The system calls. It is trusted that the call before the note in each method does what the method's name says. It
//! is also trusted of a disk that syncs many files (`SyncsTogether`) that an `Ok` is the outcome of a sync of its
//! path.

ghost use Rattle.std.specs.Prelude.{◌≡◌, ◌≤◌, [], length, is_ok, IfOk};

mod file_calls;
mod many;

use crate::call_log::CallLog;
use crate::folders::folder_of;
use crate::look::{open_folder, open_plain};
use crate::together::{SyncKind, SyncOutcome};
use std::fs::{File, Files, Metadata, OpenFile, Permissions, TryLockError, create_dir, rename};
use std::io;
use std::io::Write;
use std::marker::Model;
use std::os::unix::fs::PermissionsExt;
use tl_device::DeviceFault;

// Everybody may read what a log shows; only its owner may write it.
const SHOWN_FILE: u32 = 0o644;

const SHOWN_FOLDER: u32 = 0o755;

/// The system, through this handle, and the calls that were made. Contracts see the calls.
#[derive(Drop)]
pub(crate) struct SystemCalls<H> {
    files: H,
    log: CallLog,
}

impl<H> Model for SystemCalls<H> {
    ghost use Rattle.std.specs.Prelude.{List};
    ghost use Rattle.tl_folder.specs.FileCalls.{Call};

    ghost Value = { List Call };

    ghost view = { λ s. s.log };
}

impl<H> SystemCalls<H> {
    /// Returns the system before any call.
    pub(crate) fn new(files: H) -> SystemCalls<H>
        ensures { result ≡ [] }
    {
        SystemCalls {
            files,
            log: CallLog::new(),
        }
    }
}

/// A file or folder that is open. Only this module can write to it.
#[derive(Drop)]
pub(crate) struct OpenedFile<F> {
    file: F,
}

impl<F: OpenFile> OpenedFile<F> {
    /// Returns its metadata.
    pub(crate) fn metadata(&self) -> io::Result<Metadata> {
        self.file.metadata()
    }
}

impl OpenedFile<File> {
    /// Locks it as long as it is open, also if the process ends in any way. `Busy` means that another process has the
    /// lock.
    pub(crate) fn lock(&self) -> Result<(), DeviceFault> {
        match self.file.try_lock() {
            Ok(()) => Ok(()),
            Err(TryLockError::WouldBlock) => Err(DeviceFault::Busy),
            Err(TryLockError::Error(error)) => Err(DeviceFault::from(error)),
        }
    }
}

// Writes a file, replacing the bytes of a plain file that is there.
fn write_file<H: Files>(files: &H, path: &str, bytes: &[u8]) -> Result<(), DeviceFault> {
    let mut file = File::create(files, path)?;
    file.write_all(bytes)?;
    Ok(())
}

// Writes a file that everybody may read, whatever the process's umask. If the system can't set the mode, it stays as
// it is, and nothing fails.
fn write_shown_file<H: Files>(files: &H, path: &str, bytes: &[u8]) -> Result<(), DeviceFault> {
    let mut file = File::create(files, path)?;
    let _ = file.set_permissions(Permissions::from_mode(SHOWN_FILE));
    file.write_all(bytes)?;
    Ok(())
}

// Makes a folder that everybody may read. If the system can't set the mode, it stays as it is, and nothing fails.
fn make_shown_folder<H: Files>(files: &H, path: &str) -> Result<(), DeviceFault> {
    create_dir(files, path)?;
    let _ = files.set_permissions(path, Permissions::from_mode(SHOWN_FOLDER));
    Ok(())
}

// Writes a file where nothing is, not even a symbolic link.
fn write_new_file<H: Files>(files: &H, path: &str, bytes: &[u8]) -> Result<(), DeviceFault> {
    let mut file = File::create_new(files, path)?;
    file.write_all(bytes)?;
    Ok(())
}

// Syncs the file at this path.
fn sync_file<H: Files>(files: &H, path: &str) -> Result<(), DeviceFault> {
    match open_plain(files, path, files.symlink_metadata(path)) {
        Ok(Some(file)) => file.sync_all()?,
        Ok(None) => return Err(DeviceFault::NotThere),
        Err(fault) => return Err(fault),
    }
    Ok(())
}

// Syncs the names in the folder at this path.
fn sync_names<H: Files>(files: &H, path: &str) -> Result<(), DeviceFault> {
    let folder = open_folder(files, path)?;
    folder.sync_all()?;
    Ok(())
}

// Moves a folder to another path, and syncs the folder above the first path, so that it stays away from there after a
// crash.
fn move_folder<H: Files>(files: &H, from: &str, to: &str) -> Result<(), DeviceFault> {
    rename(files, from, to)?;
    match folder_of(from) {
        Some(folder) => sync_renamed(files, folder),
        None => Ok(()),
    }
}

// Syncs the names in the folder at this path, from which something was renamed, so the folder is there.
fn sync_renamed<H: Files>(files: &H, path: &str) -> Result<(), DeviceFault> {
    match sync_names(files, path) {
        Err(DeviceFault::NotThere) => Err(DeviceFault::System),
        outcome => outcome,
    }
}

// Converts the error of the system into a fault.
fn or_fault<T>(answer: io::Result<T>) -> Result<T, DeviceFault>
    ensures { is_ok result ≡ is_ok answer }
{
    match answer {
        Ok(it) => Ok(it),
        Err(error) => Err(DeviceFault::from(error)),
    }
}

// Appends some of the bytes to a file.
fn append_to<F: Write>(file: &mut F, bytes: &[u8]) -> Result<usize, DeviceFault>
    ensures { IfOk result (λ n. n ≤ length bytes.now) }
{
    let count = file.write(bytes)?;
    Ok(count)
}

/// Syncs what is at `paths[number]`.
pub fn sync_at<H: Files>(
    files: &H,
    kind: SyncKind,
    paths: &[String],
    number: usize,
) -> SyncOutcome {
    let Some(path) = paths.get(number) else {
        return Err(DeviceFault::NotThere);
    };
    match kind {
        SyncKind::File => sync_file(files, path.as_str()),
        SyncKind::Folder => sync_names(files, path.as_str()),
    }
}
