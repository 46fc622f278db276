//! Entries that are remembered, so that one that comes again isn't added again.

ghost use Rattle.std.specs.Prelude.{◌≡◌, ◌<◌, ◌≤◌, ◌*◌};

use crate::receipt::Receipt;
use lru::LruCache;
use std::alloc::Global;
use std::hash::RandomState;
use std::num::NonZeroUsize;
use std::random::RandomSource;
use std::sync::Arc;
use tl_archive::Shelf;
use tl_hash::{Hash, Sha256Tree, leaf_hash};
use tl_tile::{Resource, bundle_width, read_bundle};

/// The receipts of the entries that were posted last, or stood last in the log at the start, by
/// their leaf hashes (RFC 6962, section 2.1). If an entry stands more than once, its first index
/// counts.
#[derive(Drop)]
pub(crate) struct Remembered {
    alloc: Global,
    most: u64,
    receipts: Option<LruCache<[u8; 32], Arc<Receipt>, RandomState>>,
}

// Returns a list of at most this many, or none if the machine has no random bytes or allocation
// fails.
fn receipts_of<H: RandomSource>(
    rt: &H,
    alloc: Global,
    most: u64,
) -> Option<LruCache<[u8; 32], Arc<Receipt>, RandomState>> {
    let most = NonZeroUsize::new(usize::try_from(most).unwrap_or(usize::MAX))?;
    let state = RandomState::new(rt).ok()?;
    let mut receipts = LruCache::unbounded_with_hasher(alloc, state).ok()?;
    receipts.resize(most);
    Some(receipts)
}

impl Remembered {
    /// Returns an empty list for at most this many entries.
    pub(crate) fn new<H: RandomSource>(rt: &H, alloc: Global, most: u64) -> Remembered {
        Remembered {
            alloc,
            most,
            receipts: receipts_of(rt, alloc, most),
        }
    }

    /// Returns the receipt of an entry with this leaf hash, if it is remembered.
    pub(crate) fn find(&mut self, leaf: &Hash) -> Option<Arc<Receipt>> {
        let receipt = self.receipts.as_mut()?.get(leaf.as_bytes())?;
        Arc::try_clone(receipt).ok()
    }

    /// Remembers an entry by this receipt, unless one is remembered already or allocation fails.
    pub(crate) fn put(&mut self, receipt: Arc<Receipt>) {
        let leaf = receipt.leaf;
        if self.find(&leaf).is_some() {
            return;
        }
        if let Some(receipts) = self.receipts.as_mut() {
            let _ = receipts.put(*leaf.as_bytes(), receipt);
        }
    }

    // Remembers the entry of the log that has this index.
    fn put_placed(&mut self, entry: &[u8], index: u64) {
        let receipt = Receipt::new(leaf_hash(Sha256Tree, entry), Some(index));
        if let Ok(receipt) = Arc::new(self.alloc, receipt) {
            self.put(receipt);
        }
    }

    // Remembers the entries of a bundle, the first of which has this index.
    fn put_all(&mut self, index: u64, entries: &[Vec<u8>]) {
        for (before, entry) in entries.iter().enumerate() {
            self.put_placed(entry, index.saturating_add(before as u64));
        }
    }

    // Remembers the entries of a bundle of a log of this size, if the shelf has it.
    fn put_bundle<S: Shelf>(&mut self, shelf: &S, size: u64, bundle: u64)
        requires { 256 * bundle < size }
    {
        let width = bundle_width(size, bundle);
        let index = bundle;
        let Ok(Some(bytes)) = shelf.read(self.alloc, &Resource::Entries { index, width }) else {
            return;
        };
        if let Ok(entries) = read_bundle(self.alloc, &bytes, width) {
            self.put_all(bundle.saturating_mul(256), entries.as_slice());
        }
    }

    /// Remembers the last entries of a log of this size that is on a shelf.
    pub(crate) fn put_last<S: Shelf>(&mut self, shelf: &S, size: u64) {
        if self.receipts.is_none() {
            return;
        }
        for bundle in size.saturating_sub(self.most) / 256..size.div_ceil(256) {
            self.put_bundle(shelf, size, bundle);
        }
    }
}
