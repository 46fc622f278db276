//! Readers of stored hashes, and why they fail.

ghost use Rattle.std.specs.Prelude.{◌≡◌, ◌≤◌, ◌^◌, ℕ, List, length, map, IfOk, IfErr, OnOk};
ghost use Rattle.tl_hash.specs.Bytes.{Bytes, Digest};

use std::alloc::{AllocError, AllocFailed, Allocator};
use thiserror::Error;
use tl_hash::Hash;

/// The reasons why stored hashes can't be read, in the order in which they are checked.
#[derive(Clone, Copy, Debug, PartialEq, Eq, Error)]
pub enum ReadFault {
    /// A number is not below the count of stored hashes.
    #[error("a stored hash is out of range")]
    OutOfRange,
    /// The source of the hashes failed.
    #[error("the source of the stored hashes failed")]
    Source,
    /// Memory ran out.
    #[error("out of memory")]
    OutOfMemory,
    /// The root doesn't confirm this tile.
    #[error("bad tile: level {level}, index {index}, width {width}")]
    BadTile { level: u32, index: u64, width: u32 },
}

impl From<AllocError> for ReadFault {
    ghost use Rattle.tl_store.specs.declared.reader.ReadFault.TheVariants.{OutOfMemory};

    ghost from_gives = { λ _ fault. fault ≡ OutOfMemory };

    fn from(_error: AllocError) -> ReadFault {
        ReadFault::OutOfMemory
    }
}

impl<X: Drop> From<AllocFailed<X>> for ReadFault {
    ghost use Rattle.tl_store.specs.declared.reader.ReadFault.TheVariants.{OutOfMemory};

    ghost from_gives = { λ _ fault. fault ≡ OutOfMemory };

    fn from(_error: AllocFailed<X>) -> ReadFault {
        ReadFault::OutOfMemory
    }
}

/// Reads the stored hashes of a list of entries by their numbers. A reader whose size is above 2^62 stands for no
/// list, and every number is out of its range.
pub trait HashReader {
    ghost use Rattle.tl_store.specs.Stored.{stored_hash};
    ghost use Rattle.tl_store.specs.Reader.{AreReadable, GivesFault};
    ghost use Rattle.tl_store.specs.declared.reader.ReadFault.{ReadFault};

    /// The number of entries.
    ghost size: { Self → ℕ };

    /// Whether it stands for this list of entries under this digest function.
    ghost stands_for: { Self → Digest → List Bytes → Type 0 };

    /// Whether its source may give this fault, `Source` or `BadTile`.
    ghost may_fail: { Self → ReadFault → Type 0 };

    /// Returns the stored hashes with these numbers, in order. A number may occur more than once. It fails with
    /// `OutOfRange` if a number isn't below the count of stored hashes.
    fn read<B: Allocator>(&self, alloc: B, indexes: &[u64]) -> Result<Vec<Hash, B>, ReadFault>
        ensures hashes { (H : Digest) (entries : List Bytes)
            → stands_for self.now H entries
            → IfOk result (λ hashes. hashes.items ≡ map (stored_hash H entries) indexes.now) }
        ensures count { IfOk result (λ hashes. length hashes.items ≡ length indexes.now) }
        ensures in_range { OnOk result (AreReadable (size self.now) indexes.now) }
        ensures faults { IfErr result (GivesFault (size self.now) (may_fail self.now) indexes.now) };

    /// A list that the reader stands for has its size, and no more than 2^62 entries.
    ghost stands_size: { (reader : Self) (H : Digest) (entries : List Bytes)
        → stands_for reader H entries
        → (length entries ≡ size reader) × (length entries ≤ 2 ^ 62) };
}
