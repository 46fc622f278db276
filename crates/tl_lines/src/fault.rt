//! Why lines were not read.

ghost use Rattle.std.specs.Prelude.{◌≡◌};

use std::alloc::{AllocError, AllocFailed};
use thiserror::Error;

/// Why lines were not read.
#[derive(Clone, Copy, Debug, PartialEq, Eq, Error)]
pub enum LineFault {
    /// A read failed.
    #[error("read failed")]
    Read,
    /// There are fewer lines than were asked for.
    #[error("too few lines")]
    TooFew,
    /// The line with this number, counted from 0, has more than 65,535 bytes.
    #[error("line {0} too long")]
    TooLong(u64),
    /// No line ended in 2^64 - 1 reads.
    #[error("endless line")]
    Endless,
    /// Allocation failed.
    #[error("out of memory")]
    OutOfMemory,
}

impl From<AllocError> for LineFault {
    ghost use Rattle.tl_lines.specs.declared.fault.LineFault.TheVariants.{OutOfMemory};

    ghost from_gives = { λ _ fault. fault ≡ OutOfMemory };

    fn from(_error: AllocError) -> LineFault {
        LineFault::OutOfMemory
    }
}

impl<X: Drop> From<AllocFailed<X>> for LineFault {
    ghost use Rattle.tl_lines.specs.declared.fault.LineFault.TheVariants.{OutOfMemory};

    ghost from_gives = { λ _ fault. fault ≡ OutOfMemory };

    fn from(_error: AllocFailed<X>) -> LineFault {
        LineFault::OutOfMemory
    }
}
