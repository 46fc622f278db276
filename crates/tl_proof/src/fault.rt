//! Why a proof could not be made.

ghost use Rattle.std.specs.Prelude.{◌≡◌};

use std::alloc::AllocError;
use thiserror::Error;
use tl_store::ReadFault;

/// The reasons why a proof can't be made, in the order in which they are checked.
#[derive(Clone, Copy, Debug, PartialEq, Eq, Error)]
pub enum ProveFault {
    /// The index is not below the size, the old size is above it, or the size is above 2^62.
    #[error("the index or the size is out of range")]
    BadRange,
    /// The stored hashes can't be read, for a reason other than memory.
    #[error("the stored hashes could not be read: {0}")]
    Read(ReadFault),
    /// Memory ran out.
    #[error("out of memory")]
    OutOfMemory,
}

impl From<AllocError> for ProveFault {
    ghost use Rattle.tl_proof.specs.declared.fault.ProveFault.TheVariants.{OutOfMemory};

    ghost from_gives = { λ _ fault. fault ≡ OutOfMemory };

    fn from(_error: AllocError) -> ProveFault {
        ProveFault::OutOfMemory
    }
}

impl From<ReadFault> for ProveFault {
    ghost use Rattle.tl_proof.specs.ReadFaults.{from_read};

    ghost from_gives = { λ read fault. fault ≡ from_read read };

    fn from(read: ReadFault) -> ProveFault {
        match read {
            ReadFault::OutOfMemory => ProveFault::OutOfMemory,
            _ => ProveFault::Read(read),
        }
    }
}
