//! The receipt of a submitted entry.

ghost use Rattle.std.specs.Prelude.{◌<◌, IfSome};

use std::sync::atomic::{AtomicU64, Ordering};
use tl_hash::Hash;

// The index of an entry that has none yet.
const NOWHERE: u64 = u64::MAX;

/// The receipt of a submitted entry, by which its index is known once it has one.
#[derive(Drop)]
pub(crate) struct Receipt {
    // The entry's leaf hash.
    pub(crate) leaf: Hash,
    index: AtomicU64,
}

impl Receipt {
    /// Returns the receipt of an entry with this leaf hash, and with its index if that is known
    /// already.
    pub(crate) fn new(leaf: Hash, index: Option<u64>) -> Receipt {
        Receipt {
            leaf,
            index: AtomicU64::new(index.unwrap_or(NOWHERE)),
        }
    }

    /// Records the index of the entry in the log.
    pub(crate) fn set(&self, index: u64) {
        self.index.store(index, Ordering::SeqCst);
    }

    /// Returns the index of the entry in the log, if it is known and below this size.
    pub(crate) fn index_below(&self, size: u64) -> Option<u64>
        ensures { IfSome result (λ index. index < size) }
    {
        let index = self.index.load(Ordering::SeqCst);
        if index < size { Some(index) } else { None }
    }
}
