//! Why a note can't be read, opened or signed.

use std::alloc::{AllocError, AllocFailed};
use thiserror::Error;

/// Why a note can't be read, opened or signed. Lines and signers are counted from 0.
#[derive(Clone, Copy, Debug, PartialEq, Eq, Error)]
pub enum NoteFault {
    /// The bytes are no note; or, in signing, the text can't be signed, or there are no signers or more than 100.
    #[error("not a note")]
    Malformed,
    /// The name of this signer is no key's name.
    #[error("signer {0} has a bad name")]
    BadName(usize),
    /// Two verifiers have the key of this line.
    #[error("two verifiers have the key of signature line {0}")]
    Ambiguous(usize),
    /// The verifier with the key of this line doesn't accept its signature.
    #[error("signature line {0} is invalid")]
    InvalidSignature(usize),
    /// No verifier has the key of any line.
    #[error("no signature is of a known key")]
    Unverified,
    /// This signer refused the text, or gave an empty signature.
    #[error("signer {0} gave no signature")]
    Sign(usize),
    /// Allocation failed.
    #[error("out of memory")]
    OutOfMemory,
}

impl From<AllocError> for NoteFault {
    ghost use Rattle.std.specs.Prelude.{◌≡◌};
    ghost use Rattle.tl_note.specs.declared.fault.NoteFault.TheVariants.{OutOfMemory};

    ghost from_gives = { λ _ fault. fault ≡ OutOfMemory };

    fn from(_error: AllocError) -> NoteFault {
        NoteFault::OutOfMemory
    }
}

impl<X: Drop> From<AllocFailed<X>> for NoteFault {
    ghost use Rattle.std.specs.Prelude.{◌≡◌};
    ghost use Rattle.tl_note.specs.declared.fault.NoteFault.TheVariants.{OutOfMemory};

    ghost from_gives = { λ _ fault. fault ≡ OutOfMemory };

    fn from(_error: AllocFailed<X>) -> NoteFault {
        NoteFault::OutOfMemory
    }
}
