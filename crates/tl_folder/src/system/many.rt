//! Syncing many files or folders at once, as a disk does it, and noting the outcomes.

ghost use Rattle.std.specs.Prelude.{◌≡◌, length, map, string_bytes, vec_len, IfOk};
ghost use Rattle.tl_folder.specs.FileCalls.{Does};
ghost use Rattle.tl_folder.specs.Settling.{naming, syncing};
ghost use Rattle.tl_folder.specs.Inner.Staged.{move_of};

use crate::call_log::{Asked, CallLog};
use crate::staged::{Staged, sync_folders, sync_staged};
use crate::system::SystemCalls;
use crate::together::{SyncKind, SyncOutcome, SyncsTogether};
use std::alloc::{AllocError, Global};
use std::fs::Files;
use tl_device::DeviceFault;

// Returns the paths of the files.
fn paths_of(alloc: Global, staged: &[Staged]) -> Result<Vec<String>, AllocError> {
    let mut paths = Vec::new(alloc);
    for file in staged {
        paths.push(file.beside.clone()?)?;
    }
    Ok(paths)
}

// Has the disk sync what is at the paths, and returns the outcomes.
fn outcomes_of<H: Files, D: SyncsTogether>(
    files: &H,
    disk: &D,
    alloc: Global,
    kind: SyncKind,
    paths: &[String],
    count: usize,
) -> Result<Vec<SyncOutcome>, AllocError>
    ensures { IfOk result (λ outcomes. vec_len outcomes ≡ count) }
{
    let mut outcomes = vec![in alloc; Err(DeviceFault::System); count]?;
    disk.sync_each(files, kind, paths, outcomes.as_mut_slice());
    Ok(outcomes)
}

// Has the disk sync the files, and returns the outcomes.
fn outcomes_of_files<H: Files, D: SyncsTogether>(
    files: &H,
    disk: &D,
    alloc: Global,
    staged: &[Staged],
) -> Result<Vec<SyncOutcome>, AllocError>
    ensures { IfOk result (λ outcomes. vec_len outcomes ≡ length staged.now) }
{
    let paths = paths_of(alloc, staged)?;
    outcomes_of(
        files,
        disk,
        alloc,
        SyncKind::File,
        paths.as_slice(),
        staged.len(),
    )
}

// Notes the outcome of each file, up to and including the first failure, whose fault is returned.
fn note_files(
    log: &mut CallLog,
    staged: &[Staged],
    outcomes: &[Result<(), DeviceFault>],
) -> Result<(), DeviceFault>
    requires { length outcomes.now ≡ length staged.now }
    ensures { Does (map (λ file. syncing (move_of file)) staged.now) log.old log.new result }
{
    for i in 0..staged.len() {
        let outcome = outcomes[i];
        log.note(Asked::Sync, staged[i].beside.as_str(), &[], outcome.is_ok());
        outcome?;
    }
    Ok(())
}

// Notes the outcome of each folder, up to and including the first failure, whose fault is returned.
fn note_folders(
    log: &mut CallLog,
    folders: &[String],
    outcomes: &[Result<(), DeviceFault>],
) -> Result<(), DeviceFault>
    requires { length outcomes.now ≡ length folders.now }
    ensures { Does (map (λ folder. naming (string_bytes folder)) folders.now) log.old log.new result }
{
    for i in 0..folders.len() {
        let outcome = outcomes[i];
        log.note(Asked::SyncFolder, folders[i].as_str(), &[], outcome.is_ok());
        outcome?;
    }
    Ok(())
}

// Syncs after the first failure may be made but aren't noted. That is sound, since a sync changes only what it is
// for. One that succeeded only makes certain what the notes say may be lost. One that failed can spoil only a file
// beside its place, which is written again before it is put in place. And after a failure every call of the folder
// fails.
impl<H: Files> SystemCalls<H> {
    /// Syncs the files.
    pub(crate) fn sync_files<D: SyncsTogether>(
        &mut self,
        disk: &D,
        alloc: Global,
        staged: &[Staged],
    ) -> Result<(), DeviceFault>
        ensures { Does (map (λ file. syncing (move_of file)) staged.now) self.old self.new result }
    {
        match outcomes_of_files(&self.files, disk, alloc, staged) {
            Ok(outcomes) => note_files(&mut self.log, staged, outcomes.as_slice()),
            Err(_) => sync_staged(self, staged),
        }
    }

    /// Syncs the names in the folders.
    pub(crate) fn sync_folders<D: SyncsTogether>(
        &mut self,
        disk: &D,
        alloc: Global,
        folders: &[String],
    ) -> Result<(), DeviceFault>
        ensures { Does (map (λ folder. naming (string_bytes folder)) folders.now)
            self.old self.new result }
    {
        match outcomes_of(
            &self.files,
            disk,
            alloc,
            SyncKind::Folder,
            folders,
            folders.len(),
        ) {
            Ok(outcomes) => note_folders(&mut self.log, folders, outcomes.as_slice()),
            Err(_) => sync_folders(self, folders),
        }
    }
}
