//! The errors of a client's checks.

ghost use Rattle.std.specs.Prelude.{◌≡◌};
ghost use Rattle.tl_client.specs.Faults.{after_prove, after_read, after_source};
ghost use Rattle.tl_client.specs.declared.fault.ClientFault.TheVariants.{OutOfMemory};

use std::alloc::{AllocError, AllocFailed};
use thiserror::Error;
use tl_proof::ProveFault;
use tl_store::ReadFault;
use tl_tile::SourceFault;

/// Why a client has no answer.
#[derive(Clone, Copy, Debug, PartialEq, Eq, Error)]
pub enum ClientFault {
    /// The log has no such entry or bundle, or more than 2^62 entries.
    #[error("out of range")]
    Range,
    /// The source lacks a resource, or a proof asked for a tile beyond those over its leaf.
    #[error("a resource is unavailable")]
    Unavailable,
    /// This tile isn't the one that the root was computed from.
    #[error("bad tile: level {level}, index {index}, width {width}")]
    BadTile { level: u32, index: u64, width: u32 },
    /// The bytes of the bundle with this index, counted from 0, are no bundle of the width that it must have.
    #[error("entry bundle {0} is malformed")]
    BadBundle(u64),
    /// The entry with this index, counted from 0, isn't the one that the root was computed from.
    #[error("entry {0} is not the log's")]
    BadEntry(u64),
    /// The new size is smaller than the old one.
    #[error("the log shrank")]
    Shrunk,
    /// The new log doesn't begin with the old one.
    #[error("the log forked")]
    Forked,
    /// Memory ran out.
    #[error("out of memory")]
    OutOfMemory,
}

impl From<AllocError> for ClientFault {
    ghost from_gives = { λ _ fault. fault ≡ OutOfMemory };

    fn from(_error: AllocError) -> ClientFault {
        ClientFault::OutOfMemory
    }
}

impl<X: Drop> From<AllocFailed<X>> for ClientFault {
    ghost from_gives = { λ _ fault. fault ≡ OutOfMemory };

    fn from(_error: AllocFailed<X>) -> ClientFault {
        ClientFault::OutOfMemory
    }
}

impl From<SourceFault> for ClientFault {
    ghost from_gives = { λ fault wider. wider ≡ after_source fault };

    fn from(fault: SourceFault) -> ClientFault {
        match fault {
            SourceFault::Unavailable => ClientFault::Unavailable,
            SourceFault::OutOfMemory => ClientFault::OutOfMemory,
        }
    }
}

impl From<ReadFault> for ClientFault {
    ghost from_gives = { λ fault wider. wider ≡ after_read fault };

    fn from(fault: ReadFault) -> ClientFault {
        match fault {
            ReadFault::OutOfRange => ClientFault::Range,
            ReadFault::Source => ClientFault::Unavailable,
            ReadFault::OutOfMemory => ClientFault::OutOfMemory,
            ReadFault::BadTile {
                level,
                index,
                width,
            } => ClientFault::BadTile {
                level,
                index,
                width,
            },
        }
    }
}

impl From<ProveFault> for ClientFault {
    ghost from_gives = { λ fault wider. wider ≡ after_prove fault };

    fn from(fault: ProveFault) -> ClientFault {
        match fault {
            ProveFault::BadRange => ClientFault::Range,
            ProveFault::Read(fault) => ClientFault::from(fault),
            ProveFault::OutOfMemory => ClientFault::OutOfMemory,
        }
    }
}
