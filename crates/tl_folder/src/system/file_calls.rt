//! The system calls that a folder needs. Contracts see what was asked, in order, and whether the system reported
//! success.

ghost use Rattle.std.specs.Prelude.{◌≡◌, ◌≤◌, true, false, [], ◌∷◌, ◌++◌, length, take, is_ok, IfOk, IfSome, MatchResult};
ghost use Rattle.tl_folder.specs.Step as step;

use crate::call_log::Asked;
use crate::look::{open_folder, open_plain};
use crate::system::{
    OpenedFile, SystemCalls, append_to, make_shown_folder, move_folder, or_fault, sync_file,
    sync_names, write_file, write_new_file, write_shown_file,
};
use std::alloc::{Allocator, Global};
use std::fs::{Files, Metadata, OpenFile, OpenOptions, remove_file, rename};
use std::io;
use tl_device::{Counted, DeviceFault, read_whole};

impl<H: Files> SystemCalls<H> {
    /// Writes a file with these bytes, replacing those of a file that is there. An error may leave any part of them.
    pub(crate) fn write(&mut self, path: &str, bytes: &[u8]) -> Result<(), DeviceFault>
        ensures { self.new
            ≡ self.old ++ (step.Write path.now bytes.now, is_ok result) ∷ [] }
    {
        let outcome = write_file(&self.files, path, bytes);
        self.log.note(Asked::Write, path, bytes, outcome.is_ok());
        outcome
    }

    /// Writes a file as `write` does, that everybody may read and its owner may write (mode 0644), if the system can
    /// set modes.
    pub(crate) fn write_shown(&mut self, path: &str, bytes: &[u8]) -> Result<(), DeviceFault>
        ensures { self.new
            ≡ self.old ++ (step.Write path.now bytes.now, is_ok result) ∷ [] }
    {
        let outcome = write_shown_file(&self.files, path, bytes);
        self.log.note(Asked::Write, path, bytes, outcome.is_ok());
        outcome
    }

    /// Writes a new file with these bytes. `Taken` means that something is at the path, even a broken link. Any other
    /// error may leave any part of the bytes.
    pub(crate) fn write_new(&mut self, path: &str, bytes: &[u8]) -> Result<(), DeviceFault>
        ensures { self.new
            ≡ self.old ++ (step.Write path.now bytes.now, is_ok result) ∷ [] }
    {
        let outcome = write_new_file(&self.files, path, bytes);
        self.log.note(Asked::Write, path, bytes, outcome.is_ok());
        outcome
    }

    /// Syncs the file at the path. `NotPlain` means that something else than a plain file is there.
    pub(crate) fn sync(&mut self, path: &str) -> Result<(), DeviceFault>
        ensures { self.new ≡ self.old ++ (step.Sync path.now, is_ok result) ∷ [] }
    {
        let outcome = sync_file(&self.files, path);
        self.log.note(Asked::Sync, path, &[], outcome.is_ok());
        outcome
    }

    /// Removes the file at the path.
    pub(crate) fn remove(&mut self, path: &str) -> Result<(), DeviceFault>
        ensures { self.new ≡ self.old ++ (step.Remove path.now, is_ok result) ∷ [] }
    {
        let outcome = or_fault(remove_file(&self.files, path));
        self.log.note(Asked::Remove, path, &[], outcome.is_ok());
        outcome
    }

    /// Renames the file at the first path to the second, replacing what is there.
    pub(crate) fn rename(&mut self, from: &str, to: &str) -> Result<(), DeviceFault>
        ensures { self.new
            ≡ self.old ++ (step.Rename from.now to.now, is_ok result) ∷ [] }
    {
        let outcome = or_fault(rename(&self.files, from, to));
        self.log
            .note(Asked::Rename, from, to.as_bytes(), outcome.is_ok());
        outcome
    }

    /// Syncs the names in the folder at the path.
    pub(crate) fn sync_folder(&mut self, path: &str) -> Result<(), DeviceFault>
        ensures { self.new
            ≡ self.old ++ (step.SyncFolder path.now, is_ok result) ∷ [] }
    {
        let outcome = sync_names(&self.files, path);
        self.log.note(Asked::SyncFolder, path, &[], outcome.is_ok());
        outcome
    }

    /// Makes a folder at the path that everybody may read (mode 0755), if the system can set modes. `NotThere` means
    /// that the folder above it isn't there, `Taken` that something is at the path.
    pub(crate) fn make_folder(&mut self, path: &str) -> Result<(), DeviceFault>
        ensures { self.new
            ≡ self.old ++ (step.MakeFolder path.now, is_ok result) ∷ [] }
    {
        let outcome = make_shown_folder(&self.files, path);
        self.log.note(Asked::MakeFolder, path, &[], outcome.is_ok());
        outcome
    }

    /// Moves the folder at the first path to the second, with all that is in it, and syncs that. `NotThere` means
    /// that nothing is at the first path. An error may have moved it all the same, and a crash may then undo that.
    pub(crate) fn move_away(&mut self, from: &str, to: &str) -> Result<(), DeviceFault>
        ensures { self.new
            ≡ self.old ++ (step.MoveAway from.now to.now, is_ok result) ∷ [] }
    {
        let outcome = move_folder(&self.files, from, to);
        self.log
            .note(Asked::MoveAway, from, to.as_bytes(), outcome.is_ok());
        outcome
    }

    /// Removes the folder at the path and all that is in it. An error may leave any part of it.
    pub(crate) fn remove_folder(&mut self, alloc: Global, path: &str) -> Result<(), DeviceFault>
        ensures { self.new
            ≡ self.old ++ (step.RemoveFolder path.now, is_ok result) ∷ [] }
    {
        let outcome = or_fault(self.files.remove_dir_all(alloc, path));
        self.log
            .note(Asked::RemoveFolder, path, &[], outcome.is_ok());
        outcome
    }

    /// Opens the file at the path with these options, and makes it if there is none.
    pub(crate) fn create(
        &mut self,
        how: &OpenOptions,
        path: &str,
    ) -> Result<OpenedFile<H::File>, DeviceFault>
        ensures { self.new ≡ self.old ++ (step.Create path.now, is_ok result) ∷ [] }
    {
        match how.open(&self.files, path) {
            Ok(file) => {
                self.log.note(Asked::Create, path, &[], true);
                Ok(OpenedFile { file })
            }
            Err(error) => {
                self.log.note(Asked::Create, path, &[], false);
                Err(DeviceFault::from(error))
            }
        }
    }

    /// Appends some of the bytes to the open file, which was opened by this path.
    pub(crate) fn append(
        &mut self,
        file: &mut OpenedFile<H::File>,
        path: &str,
        bytes: &[u8],
    ) -> Result<usize, DeviceFault>
        ensures count { IfOk result (λ n. n ≤ length bytes.now) }
        ensures calls { MatchResult result
            (λ n. self.new
            ≡ self.old ++ (step.Append path.now (take n bytes.now), true) ∷ [])
            (λ _. self.new
            ≡ self.old ++ (step.Append path.now bytes.now, false) ∷ []) }
    {
        match append_to(&mut file.file, bytes) {
            Ok(count) => {
                self.log.note(Asked::Append, path, &bytes[..count], true);
                Ok(count)
            }
            Err(fault) => {
                self.log.note(Asked::Append, path, bytes, false);
                Err(fault)
            }
        }
    }

    /// Cuts the open file, which was opened by this path, to its first `count` bytes.
    pub(crate) fn cut(
        &mut self,
        file: &OpenedFile<H::File>,
        path: &str,
        count: u64,
    ) -> Result<(), DeviceFault>
        ensures { self.new
            ≡ self.old ++ (step.Cut path.now count, is_ok result) ∷ [] }
    {
        let outcome = or_fault(file.file.set_len(count));
        self.log.note(Asked::Cut(count), path, &[], outcome.is_ok());
        outcome
    }

    /// Syncs the bytes of the open file, which was opened by this path.
    pub(crate) fn sync_data(
        &mut self,
        file: &OpenedFile<H::File>,
        path: &str,
    ) -> Result<(), DeviceFault>
        ensures { self.new ≡ self.old ++ (step.Sync path.now, is_ok result) ∷ [] }
    {
        let outcome = or_fault(file.file.sync_data());
        self.log.note(Asked::Sync, path, &[], outcome.is_ok());
        outcome
    }

    /// Syncs the open file, which was opened by this path, with its metadata.
    pub(crate) fn sync_all(
        &mut self,
        file: &OpenedFile<H::File>,
        path: &str,
    ) -> Result<(), DeviceFault>
        ensures { self.new ≡ self.old ++ (step.Sync path.now, is_ok result) ∷ [] }
    {
        let outcome = or_fault(file.file.sync_all());
        self.log.note(Asked::Sync, path, &[], outcome.is_ok());
        outcome
    }

    /// Returns the metadata of what is at a path, with links followed.
    pub(crate) fn metadata(&self, path: &str) -> io::Result<Metadata> {
        self.files.metadata(path)
    }

    /// Returns the metadata of what is at a path, without following a link.
    pub(crate) fn symlink_metadata(&self, path: &str) -> io::Result<Metadata> {
        self.files.symlink_metadata(path)
    }

    /// Opens the folder at a path, following links. Anything else is not opened.
    pub(crate) fn open_folder(&self, path: &str) -> Result<OpenedFile<H::File>, DeviceFault> {
        let file = open_folder(&self.files, path)?;
        Ok(OpenedFile { file })
    }

    /// Returns the bytes of the plain file at a path, given the path's metadata, or `None` if nothing is there.
    /// `TooLarge` means that it has more than `most`. A symbolic link is followed if the metadata is that of its
    /// target.
    pub(crate) fn read<A: Allocator>(
        &self,
        alloc: A,
        path: &str,
        told: io::Result<Metadata>,
        most: u64,
    ) -> Result<Option<Vec<u8, A>>, DeviceFault>
        ensures { IfOk result (λ found. IfSome found (λ bytes. length bytes.items ≤ most)) }
    {
        let file = match open_plain(&self.files, path, told) {
            Ok(Some(file)) => file,
            Ok(None) => return Ok(None),
            Err(fault) => return Err(fault),
        };
        match read_whole(alloc, &mut Counted::new(file), most) {
            Ok(bytes) => Ok(Some(bytes)),
            Err(fault) => Err(DeviceFault::from(fault)),
        }
    }
}
