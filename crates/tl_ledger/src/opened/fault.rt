//! Why a log was not opened.

ghost use Rattle.std.specs.Prelude.{◌≡◌};
ghost use Rattle.tl_ledger.specs.declared.opened.fault.OpenFault.TheVariants as opening;

use std::alloc::{AllocError, AllocFailed};
use thiserror::Error;
use tl_archive::ShelfFault;
use tl_tile::Resource;

/// Why a log that is on a shelf was not opened.
#[derive(Clone, Copy, Debug, PartialEq, Eq, Error)]
pub enum OpenFault {
    /// The checkpoint is no note that opens with the verifiers, or its text isn't a checkpoint's (C2SP
    /// tlog-checkpoint).
    #[error("the checkpoint does not open")]
    Checkpoint,
    /// The checkpoint is of another log: its origin is the name of none of the keys (C2SP tlog-checkpoint).
    #[error("the checkpoint is of another log")]
    OtherLog,
    /// The checkpoint states more than 2^32 - 1 entries.
    #[error("the log is too large")]
    TooLarge,
    /// A partial tile or the partial bundle of the log is missing.
    #[error("a resource of the log is missing")]
    Missing(Resource),
    /// The tile or bundle isn't the one that the checkpoint's root was computed from.
    #[error("a resource of the log is damaged")]
    Damaged(Resource),
    /// The shelf failed.
    #[error("{0}")]
    Shelf(ShelfFault),
    /// Allocation failed.
    #[error("out of memory")]
    OutOfMemory,
}

impl From<AllocError> for OpenFault {
    ghost from_gives = { λ _ fault. fault ≡ opening.OutOfMemory };

    fn from(_error: AllocError) -> OpenFault {
        OpenFault::OutOfMemory
    }
}

impl<X: Drop> From<AllocFailed<X>> for OpenFault {
    ghost from_gives = { λ _ fault. fault ≡ opening.OutOfMemory };

    fn from(_fault: AllocFailed<X>) -> OpenFault {
        OpenFault::OutOfMemory
    }
}

impl From<ShelfFault> for OpenFault {
    ghost from_gives = { λ fault wider. wider ≡ opening.Shelf fault };

    fn from(fault: ShelfFault) -> OpenFault {
        OpenFault::Shelf(fault)
    }
}
