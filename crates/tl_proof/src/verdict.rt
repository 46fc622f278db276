//! The verdicts of an audit.

ghost use Rattle.std.specs.Prelude.{◌≡◌};

use std::alloc::{AllocError, AllocFailed, Allocator};
use thiserror::Error;

/// What an audit of an accepted new list shows.
#[derive(Debug, Drop)]
pub enum Verdict<A: Allocator> {
    /// The old list is a prefix of the new one.
    Extends,
    /// It isn't, and these are two different byte strings with one digest, both of which were hashed for the audit:
    /// the digest function is broken.
    Collision(Vec<u8, A>, Vec<u8, A>),
}

/// Why an audit has no verdict.
#[derive(Clone, Copy, Debug, PartialEq, Eq, Error)]
pub enum AuditFault {
    /// The proofs do not lead from the root of the old list to the root of the new one.
    #[error("the proofs are not accepted")]
    NotAccepted,
    /// Memory ran out.
    #[error("out of memory")]
    OutOfMemory,
}

impl From<AllocError> for AuditFault {
    ghost use Rattle.tl_proof.specs.declared.verdict.AuditFault.TheVariants.{OutOfMemory};

    ghost from_gives = { λ _ fault. fault ≡ OutOfMemory };

    fn from(_error: AllocError) -> AuditFault {
        AuditFault::OutOfMemory
    }
}

impl<X: Drop> From<AllocFailed<X>> for AuditFault {
    ghost use Rattle.tl_proof.specs.declared.verdict.AuditFault.TheVariants.{OutOfMemory};

    ghost from_gives = { λ _ fault. fault ≡ OutOfMemory };

    fn from(_error: AllocFailed<X>) -> AuditFault {
        AuditFault::OutOfMemory
    }
}
