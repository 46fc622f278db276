//! Why the state of a witness isn't read.

ghost use Rattle.std.specs.Prelude.{◌≡◌};

use std::alloc::{AllocError, AllocFailed};
use thiserror::Error;

/// Why the state of a witness isn't read. Lines are counted from 0.
#[derive(Clone, Copy, Debug, PartialEq, Eq, Error)]
pub enum StateFault {
    /// A read failed.
    #[error("read failed")]
    Read,
    /// This line is the first that is wrong: it isn't the line of a link.
    #[error("line {0} is malformed")]
    Malformed(u64),
    /// This line is the first that is wrong: its link isn't accepted from the one before of its origin.
    #[error("the link of line {0} isn't accepted")]
    Broken(u64),
    /// A line is longer than 64 MiB, or the state has 2^62 bytes.
    #[error("too large")]
    TooLarge,
    /// Allocation failed.
    #[error("out of memory")]
    OutOfMemory,
}

impl From<AllocError> for StateFault {
    ghost use Rattle.tl_logs.specs.declared.state_fault.StateFault.TheVariants.{OutOfMemory};

    ghost from_gives = { λ _ fault. fault ≡ OutOfMemory };

    fn from(_fault: AllocError) -> StateFault {
        StateFault::OutOfMemory
    }
}

impl<X: Drop> From<AllocFailed<X>> for StateFault {
    ghost use Rattle.tl_logs.specs.declared.state_fault.StateFault.TheVariants.{OutOfMemory};

    ghost from_gives = { λ _ fault. fault ≡ OutOfMemory };

    fn from(_fault: AllocFailed<X>) -> StateFault {
        StateFault::OutOfMemory
    }
}
