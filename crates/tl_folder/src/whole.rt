//! A file that is replaced as a whole.

ghost use Rattle.std.specs.Prelude.{◌≡◌, [], ◌∷◌, ◌++◌, IfOk, OnOk};
ghost use Rattle.tl_folder.specs.Step as step;
ghost use Rattle.tl_folder.specs.FileCalls.{Takes, done};
ghost use Rattle.tl_folder.specs.Settling.{lock_path_of, new_path, replacing};

use crate::lock::LockedFile;
use crate::look::check_plain;
use crate::over::put_over;
use crate::place::beside;
use crate::record::note_bytes;
use crate::system::SystemCalls;
use http_server::Log;
use std::alloc::Global;
use std::fs::{File, Files, OpenOptions};
use std::marker::Model;
use tl_device::DeviceFault;

/// A file that one process at a time reads and replaces. At each moment, even if a crash comes, it has its old bytes
/// or its new ones. Contracts see the bytes that last replaced others, and the system calls so far.
#[derive(Drop)]
pub struct AtomicFile<'s, H: Files> {
    calls: SystemCalls<&'s H>,
    path: &'s str,
    beside: String,
    lock_path: String,
    lock: LockedFile,
    last: Log<(), u8>,
}

impl<'s, H: Files> Model for AtomicFile<'s, H> {
    ghost use Rattle.std.specs.Prelude.{◌≡◌, string_bytes};
    ghost use Rattle.tl_folder.specs.Events.{noted};
    ghost use Rattle.tl_folder.specs.Settling.{new_path};
    ghost use Rattle.tl_folder.specs.Opened as seen;

    ghost Value = { seen.Replaced };

    ghost view = { λ f. record { path = f.path.now; bytes = noted f.last; calls = f.calls } };

    ghost invariant = { λ f. string_bytes f.beside ≡ new_path f.path.now };
}

/// Writes bytes beside the place of a file, syncs them, renames the file to its place and syncs the name. `NotPlain`
/// means that at one of the two paths is something else than a plain file; nothing was written then.
pub(crate) fn replace_by<H: Files>(
    calls: &mut SystemCalls<H>,
    beside: &str,
    path: &str,
    bytes: &[u8],
) -> Result<(), DeviceFault>
    ensures { Takes (replacing beside.now path.now bytes.now)
        calls.old calls.new result }
{
    check_plain(calls.symlink_metadata(path))?;
    put_over(calls, beside, path, bytes, true)
}

impl<'s, H: Files<File = File>> AtomicFile<'s, H> {
    /// Opens the file at this path, whether it is there or not. A file beside it, whose name has `.lock` added, is
    /// made and locked as long as the value lives. `Busy` means that another process has that lock; `NotPlain` that
    /// something else than a plain file, such as a symbolic link, is at the lock's path.
    pub fn open(
        files: &'s H,
        alloc: Global,
        path: &'s str,
    ) -> Result<AtomicFile<'s, H>, DeviceFault>
        ensures { IfOk result (λ file. file ≡ record {
          path = path.now;
          bytes = [];
          calls = done (step.Create (lock_path_of path.now) ∷ []);
        }) }
    {
        let lock_path = format!(in alloc; "{path}.lock")?;
        let beside = beside(alloc, path)?;
        let mut how = OpenOptions::new();
        how.append(true).create(true);
        let mut calls = SystemCalls::new(files);
        let lock = LockedFile::open(&mut calls, &how, lock_path.as_str())?;
        Ok(AtomicFile {
            calls,
            path,
            beside,
            lock_path,
            lock,
            last: Log::new(),
        })
    }

    /// Returns the file's bytes, or `None` if there is no file. `TooLarge` means that it has more than `most`;
    /// `NotPlain` that something else than a plain file, such as a symbolic link, is at its path.
    pub fn read(&self, alloc: Global, most: u64) -> Result<Option<Vec<u8>>, DeviceFault> {
        let told = self.calls.symlink_metadata(self.path);
        self.calls.read(alloc, self.path, told, most)
    }

    /// Replaces the file's bytes. Waits for the disk: on return the new bytes outlast a crash. `Moved` means that the
    /// locked file isn't at its path any more; `NotPlain` that something else than a plain file, such as a symbolic
    /// link, is at its path or where the new bytes would first be written. Nothing was written then.
    pub fn replace(&mut self, bytes: &[u8]) -> Result<(), DeviceFault>
        ensures path { self.new.path ≡ self.old.path }
        ensures replaced { OnOk result (self.new.bytes ≡ bytes.now) }
        ensures calls { Takes (replacing (new_path self.old.path) self.old.path bytes.now)
            self.old.calls self.new.calls result }
    {
        let told = self.calls.symlink_metadata(self.lock_path.as_str());
        self.lock.check_at(told)?;
        replace_by(&mut self.calls, self.beside.as_str(), self.path, bytes)?;
        self.last = Log::new();
        note_bytes(&mut self.last, bytes);
        Ok(())
    }
}
