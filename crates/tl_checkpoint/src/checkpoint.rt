//! Checkpoints, and why one can't be written or read.

ghost use Rattle.std.specs.Prelude.{◌≡◌};
ghost use Rattle.tl_checkpoint.specs.declared.checkpoint.CheckpointFault.TheVariants.{OutOfMemory};

use std::alloc::{AllocError, AllocFailed, Allocator};
use thiserror::Error;
use tl_hash::Hash;

/// What a log states about itself: its name, its number of entries and the root of their tree (C2SP tlog-checkpoint).
#[derive(Debug, Drop)]
pub struct Checkpoint<A: Allocator> {
    /// The name of the log: one line, not empty.
    pub origin: String<A>,
    /// The number of entries, below 2^63.
    pub size: u64,
    /// The Merkle tree hash of the entries.
    pub root: Hash,
    /// Further lines, none of which is empty.
    pub extensions: Vec<String<A>, A>,
}

/// The reasons why a checkpoint can't be written or read, in the order in which they are checked.
#[derive(Clone, Copy, Debug, PartialEq, Eq, Error)]
pub enum CheckpointFault {
    /// The text has fewer than three lines, or an extension line is empty or has a control character.
    #[error("bad line")]
    Lines,
    /// The origin is empty or has a control character.
    #[error("bad origin")]
    Origin,
    /// The size isn't a decimal number below 2^63.
    #[error("bad size")]
    Size,
    /// The root isn't base64 of 32 bytes.
    #[error("bad root hash")]
    Root,
    /// Allocation failed.
    #[error("out of memory")]
    OutOfMemory,
}

impl From<AllocError> for CheckpointFault {
    ghost from_gives = { λ _ fault. fault ≡ OutOfMemory };

    fn from(_fault: AllocError) -> CheckpointFault {
        CheckpointFault::OutOfMemory
    }
}

impl<X: Drop> From<AllocFailed<X>> for CheckpointFault {
    ghost from_gives = { λ _ fault. fault ≡ OutOfMemory };

    fn from(_fault: AllocFailed<X>) -> CheckpointFault {
        CheckpointFault::OutOfMemory
    }
}
