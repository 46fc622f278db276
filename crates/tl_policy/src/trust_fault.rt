//! Why a policy trusts no checkpoint of a note.

ghost use Rattle.std.specs.Prelude.{◌≡◌};
ghost use Rattle.tl_policy.specs.declared.trust_fault.TrustFault.TheVariants.{OutOfMemory};

use crate::satisfied::Shortfall;
use std::alloc::{AllocError, AllocFailed};
use std::error::Error;
use std::fmt::{self, Display, Formatter};
use tl_checkpoint::CheckpointFault;

/// Why a policy trusts no checkpoint of a note, in the order in which it is found.
#[derive(Copy, Debug)]
pub enum TrustFault {
    /// The bytes are no note.
    NoNote,
    /// No line is of the key of a log of the policy.
    Unsigned,
    /// The first line of that log's key isn't a valid signature.
    InvalidSignature,
    /// The text is no checkpoint's.
    NoCheckpoint(CheckpointFault),
    /// The checkpoint's origin isn't the name of that key.
    OtherOrigin,
    /// The witnesses that cosigned it don't satisfy the quorum.
    NotSatisfied(Shortfall),
    /// Memory ran out.
    OutOfMemory,
}

impl Clone for TrustFault {
    fn clone(&self) -> Result<TrustFault, AllocError> {
        Ok(*self)
    }
}

impl Display for TrustFault {
    ghost use Rattle.std.specs.Prelude.{Some};
    ghost use Rattle.tl_policy.specs.FaultWords.{trust_words};

    ghost output = { λ fault. Some (trust_words fault) };

    fn fmt<W: fmt::Write>(&self, f: &mut Formatter<W>) -> fmt::Result {
        let words = match self {
            TrustFault::NoNote => "no signed checkpoint",
            TrustFault::Unsigned => "signed by no log of the policy",
            TrustFault::InvalidSignature => "the log's signature is wrong",
            TrustFault::NoCheckpoint(_) => "the signed text is no checkpoint",
            TrustFault::OtherOrigin => "the checkpoint is of another log than its key",
            TrustFault::NotSatisfied(short) => {
                return write!(f, "cosigned by {}, {} wanted", short.have, short.want);
            }
            TrustFault::OutOfMemory => "out of memory",
        };
        f.write_str(words)
    }
}

impl Error for TrustFault {}

impl From<AllocError> for TrustFault {
    ghost from_gives = { λ _ fault. fault ≡ OutOfMemory };

    fn from(_fault: AllocError) -> TrustFault {
        TrustFault::OutOfMemory
    }
}

impl<X: Drop> From<AllocFailed<X>> for TrustFault {
    ghost from_gives = { λ _ fault. fault ≡ OutOfMemory };

    fn from(_fault: AllocFailed<X>) -> TrustFault {
        TrustFault::OutOfMemory
    }
}
