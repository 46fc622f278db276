//! The file in a log's folder with what the log proposes.

ghost use Rattle.std.specs.Prelude.{◌≡◌};

use std::alloc::{AllocError, Global};
use std::fs::{File, Files, symlink_metadata};
use tl_append::ProposalStore;
use tl_device::{DeviceFault, read_plain};
use tl_folder::AtomicFile;
use tl_run::{Place, RunFault};

// The most bytes of a note.
const MOST: u64 = 65_536;

/// Returns the path of the file in this folder.
pub(crate) fn proposal_path(alloc: Global, dir: &str) -> Result<String, AllocError> {
    let dir = dir.strip_suffix('/').unwrap_or(dir);
    Ok(format!(in alloc; "{dir}/proposal")?)
}

// Returns the fault of the file.
fn refusal(fault: DeviceFault) -> RunFault {
    RunFault::of_device(Place::Log(None), fault)
}

// Returns the note that these bytes are.
fn note_of(bytes: Vec<u8>) -> Result<String, RunFault> {
    match String::from_utf8(bytes) {
        Ok(note) => Ok(note),
        Err(_) => Err(RunFault::BadCheckpoint(Place::Log(None))),
    }
}

/// The file at a path, as read by a log that proposes nothing itself.
#[derive(Drop)]
pub(crate) struct ReadProposal<'s, H> {
    pub(crate) rt: &'s H,
    pub(crate) path: &'s str,
}

impl<H: Files> ProposalStore for ReadProposal<'_, H> {
    ghost may_have = { λ _ _. Unit {0} };

    ghost has_kept = { λ _ _. ⊥ };

    fn last(&self, alloc: Global) -> Result<Option<String>, RunFault> {
        let told = symlink_metadata(self.rt, self.path);
        match read_plain(alloc, self.rt, self.path, told, MOST) {
            Ok(bytes) => Ok(Some(note_of(bytes)?)),
            Err(DeviceFault::NotThere) => Ok(None),
            Err(fault) => Err(refusal(fault)),
        }
    }

    fn keep(&mut self, _note: &str) -> Result<(), RunFault> {
        Err(RunFault::Operator)
    }
}

/// The file, which has the note that was proposed last.
#[derive(Drop)]
pub(crate) struct ProposalFile<'s, H: Files>(AtomicFile<'s, H>);

impl<'s, H: Files<File = File>> ProposalFile<'s, H> {
    /// Opens the file at this path, whether it is there or not.
    pub(crate) fn open(
        rt: &'s H,
        alloc: Global,
        path: &'s str,
    ) -> Result<ProposalFile<'s, H>, RunFault> {
        match AtomicFile::open(rt, alloc, path) {
            Ok(file) => Ok(ProposalFile(file)),
            Err(fault) => Err(refusal(fault)),
        }
    }
}

impl<H: Files<File = File>> ProposalStore for ProposalFile<'_, H> {
    ghost use Rattle.std.specs.Prelude.{◌≡◌};

    ghost may_have = { λ _ _. Unit {0} };

    ghost has_kept = { λ s note. s.0.bytes ≡ note };

    fn last(&self, alloc: Global) -> Result<Option<String>, RunFault> {
        match self.0.read(alloc, MOST) {
            Ok(Some(bytes)) => Ok(Some(note_of(bytes)?)),
            Ok(None) => Ok(None),
            Err(fault) => Err(refusal(fault)),
        }
    }

    fn keep(&mut self, note: &str) -> Result<(), RunFault> {
        match self.0.replace(note.as_bytes()) {
            Ok(()) => Ok(()),
            Err(fault) => Err(refusal(fault)),
        }
    }
}
