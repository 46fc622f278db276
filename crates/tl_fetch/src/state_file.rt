//! A state in a file.

ghost use Rattle.std.specs.Prelude.{◌≡◌, IfErr, IfOk, IsSomeAnd, IsUtf8, option_map, string_bytes, vec_items};
ghost use Rattle.tl_fetch.specs.Command.{IsStateFault};
ghost use Rattle.tl_fetch.specs.Faults.{IsNoAccusation};

use crate::fault::FetchFault;
use crate::policy::Policy;
use crate::state::TrustStore;
use std::alloc::Global;
use std::fs::{File, Files};
use tl_device::DeviceFault;
use tl_folder::AtomicFile;
use tl_run::{Place, RunFault};

// The most bytes of a note.
const MOST: u64 = 65_536;

/// Returns the fault of the command if the file of a state can't be opened, read or replaced.
pub(crate) fn file_refusal(fault: DeviceFault) -> FetchFault
    ensures refused { IsStateFault result }
    ensures fair { IsNoAccusation result }
{
    FetchFault::Run(RunFault::of_device(Place::State, fault))
}

// Returns the note that the bytes of a state's file are, if there is a file. It fails with `BadCheckpoint` of the
// state if they are no text.
fn note_of(bytes: Option<Vec<u8>>) -> Result<Option<String>, FetchFault>
    ensures text { IfOk result
        (λ note. option_map string_bytes note ≡ option_map vec_items bytes) }
    ensures refused { IfErr result (λ fault.
        (fault ≡ FetchFault.Run (RunFault.BadCheckpoint Place.State))
        × IsSomeAnd bytes (λ b. ¬ (IsUtf8 (vec_items b)))) }
{
    let Some(bytes) = bytes else {
        return Ok(None);
    };
    match String::from_utf8(bytes) {
        Ok(note) => Ok(Some(note)),
        Err(_) => Err(FetchFault::Run(RunFault::BadCheckpoint(Place::State))),
    }
}

/// A state whose file has the note.
#[derive(Drop)]
pub struct FileState<'s, H: Files>(pub AtomicFile<'s, H>);

impl<H: Files<File = File>> TrustStore for FileState<'_, H> {
    ghost use Rattle.std.specs.Prelude.{◌≡◌};

    ghost may_have = { λ _ note. Unit {0} };

    ghost has_kept = { λ s note. s.0.bytes ≡ note };

    ghost may_fail = { λ _ fault. IsStateFault fault };

    fn last(&self, alloc: Global) -> Result<Option<String>, FetchFault> {
        match self.0.read(alloc, MOST) {
            Ok(bytes) => note_of(bytes),
            Err(fault) => Err(file_refusal(fault)),
        }
    }

    fn keep(
        &mut self,
        _policy: &Policy<'_>,
        _last: Option<&str>,
        note: &str,
    ) -> Result<(), FetchFault> {
        match self.0.replace(note.as_bytes()) {
            Ok(()) => Ok(()),
            Err(fault) => Err(file_refusal(fault)),
        }
    }
}
