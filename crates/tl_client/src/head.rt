//! Checking a checkpoint that the log signed and witnesses cosigned. What a client trusts of a log is its size and
//! root.

ghost use Rattle.std.specs.Prelude.{◌≡◌, map};
ghost use Rattle.tl_client.specs.Trusted.{OpensHead, after_checkpoint, after_note};
ghost use Rattle.tl_client.specs.declared.head.HeadFault.TheVariants.{OutOfMemory};
ghost use Rattle.tl_key.specs.NoteKey.{verifier_key};

use crate::cosigners::cosigner_names;
use std::alloc::{AllocError, AllocFailed, Allocator, Global};
use thiserror::Error;
use tl_checkpoint::{Checkpoint, CheckpointFault, parse};
use tl_key::CosignerVerifier;
use tl_note::{NoteFault, Verifier, open_note};

/// Why a checkpoint isn't trusted, in the order of the checks.
#[derive(Clone, Copy, Debug, PartialEq, Eq, Error)]
pub enum HeadFault {
    /// The bytes are no note, or it doesn't open with the log's keys (C2SP signed-note, "Verification").
    #[error("{0}")]
    Unopened(NoteFault),
    /// The note opens, but its text is no checkpoint.
    #[error("{0}")]
    NoCheckpoint(CheckpointFault),
    /// Only this many witnesses cosigned it.
    #[error("only {0} witnesses cosigned the checkpoint")]
    TooFew(u64),
    /// Memory ran out.
    #[error("out of memory")]
    OutOfMemory,
}

impl From<AllocError> for HeadFault {
    ghost from_gives = { λ _ fault. fault ≡ OutOfMemory };

    fn from(_error: AllocError) -> HeadFault {
        HeadFault::OutOfMemory
    }
}

impl<X: Drop> From<AllocFailed<X>> for HeadFault {
    ghost from_gives = { λ _ fault. fault ≡ OutOfMemory };

    fn from(_error: AllocFailed<X>) -> HeadFault {
        HeadFault::OutOfMemory
    }
}

impl From<NoteFault> for HeadFault {
    ghost from_gives = { λ fault wider. wider ≡ after_note fault };

    fn from(fault: NoteFault) -> HeadFault {
        match fault {
            NoteFault::OutOfMemory => HeadFault::OutOfMemory,
            _ => HeadFault::Unopened(fault),
        }
    }
}

impl From<CheckpointFault> for HeadFault {
    ghost from_gives = { λ fault wider. wider ≡ after_checkpoint fault };

    fn from(fault: CheckpointFault) -> HeadFault {
        match fault {
            CheckpointFault::OutOfMemory => HeadFault::OutOfMemory,
            _ => HeadFault::NoCheckpoint(fault),
        }
    }
}

/// Returns the checkpoint of a signed note that opens with the log's keys (C2SP tlog-checkpoint) and that at least
/// `need` of the witnesses cosigned (C2SP tlog-cosignature). Keys with the same name belong to one witness, which
/// counts once, whichever of them it used. A line that is of no witness, or isn't valid for this checkpoint, doesn't
/// count. `OutOfMemory` comes only if the text is a note.
pub fn open_cosigned<A: Allocator + Copy>(
    alloc: A,
    note: &str,
    verifiers: &[Box<dyn Verifier>],
    witnesses: &[CosignerVerifier<Global>],
    need: u64,
) -> Result<Checkpoint<A>, HeadFault>
    ensures { OpensHead note.now (record {
      keys = map (λ v. key v) verifiers.now;
      witnesses = map verifier_key witnesses.now;
      need = need;
    }) result }
{
    let opened = open_note(alloc, note, verifiers)?;
    let checkpoint = parse(alloc, opened.note.text)?;
    let lines = opened.note.signatures.as_slice();
    let names = cosigner_names(alloc, opened.note.text, lines, witnesses)?;
    if (names.len() as u64) < need {
        return Err(HeadFault::TooFew(names.len() as u64));
    }
    Ok(checkpoint)
}
