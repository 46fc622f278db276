//! Opening a signed checkpoint.

ghost use Rattle.std.specs.Prelude.{map};
ghost use Rattle.tl_checkpoint.specs.OpenCheckpoint.{OpensCheckpoint};

use crate::checkpoint::{Checkpoint, CheckpointFault};
use crate::parsing::parse;
use std::alloc::Allocator;
use thiserror::Error;
use tl_note::{NoteFault, Verifier, open_note};

/// The reasons why a signed checkpoint can't be opened.
#[derive(Clone, Copy, Debug, PartialEq, Eq, Error)]
pub enum OpenCheckpointFault {
    /// The bytes are no note, or it doesn't open (C2SP signed-note, "Verification").
    #[error("{0}")]
    Unopened(NoteFault),
    /// The note opens, but its text is no checkpoint.
    #[error("{0}")]
    NoCheckpoint(CheckpointFault),
    /// Allocation failed.
    #[error("out of memory")]
    OutOfMemory,
}

impl From<NoteFault> for OpenCheckpointFault {
    ghost use Rattle.tl_checkpoint.specs.OpenFaults.{after_note};
    ghost use Rattle.std.specs.Prelude.{◌≡◌};

    ghost from_gives = { λ fault result. result ≡ after_note fault };

    fn from(fault: NoteFault) -> OpenCheckpointFault {
        match fault {
            NoteFault::OutOfMemory => OpenCheckpointFault::OutOfMemory,
            _ => OpenCheckpointFault::Unopened(fault),
        }
    }
}

impl From<CheckpointFault> for OpenCheckpointFault {
    ghost use Rattle.tl_checkpoint.specs.OpenFaults.{after_text};
    ghost use Rattle.std.specs.Prelude.{◌≡◌};

    ghost from_gives = { λ fault result. result ≡ after_text fault };

    fn from(fault: CheckpointFault) -> OpenCheckpointFault {
        match fault {
            CheckpointFault::OutOfMemory => OpenCheckpointFault::OutOfMemory,
            _ => OpenCheckpointFault::NoCheckpoint(fault),
        }
    }
}

/// Returns the checkpoint of a signed note that opens under these keys (C2SP tlog-checkpoint; signed-note,
/// "Verification"): some line has a key of a verifier, and each line that counts is valid. `OutOfMemory` occurs only
/// for a note.
pub fn open_checkpoint<A: Allocator + Copy>(
    alloc: A,
    note: &str,
    verifiers: &[Box<dyn Verifier>],
) -> Result<Checkpoint<A>, OpenCheckpointFault>
    ensures { OpensCheckpoint note.now (map (λ verifier. key verifier) verifiers.now) result }
{
    let opened = open_note(alloc, note, verifiers)?;
    let checkpoint = parse(alloc, opened.note.text)?;
    Ok(checkpoint)
}
