//! Adding entries to stored hashes in a `Vec`.

ghost use Rattle.std.specs.Prelude.{◌≡◌, ◌≤◌, ◌<◌, ◌+◌, ◌-◌, ◌%◌, ◌^◌, [], ◌∷◌, ◌++◌, List, length, map, vec_items, vec_capacity, OnOk, OnErr};
ghost use Rattle.tl_hash.specs.Bytes.{Bytes};
ghost use Rattle.tl_store.specs.Stored.{stored_count, stored_hashes};
ghost use Rattle.tl_store.specs.Inner.Adds.{AddsEntries, IsBegun};

use crate::index::stored_index;
use crate::quads::push_sixteen;
use std::alloc::{AllocError, Allocator};
use tl_hash::{Hash, TreeHash, leaf_hash, node_hash};

// Reserves room for `count` hashes in all.
pub(crate) fn reserve_up_to<A: Allocator>(
    hashes: &mut Vec<Hash, A>,
    count: usize,
) -> Result<(), AllocError>
    ensures items { hashes.new.items ≡ hashes.old.items }
    ensures room { OnOk result (count ≤ vec_capacity hashes.new) }
    ensures unchanged { OnErr result (vec_capacity hashes.new ≡ vec_capacity hashes.old) }
    ensures full { OnErr result (vec_capacity hashes.old < count) }
{
    hashes.reserve(count.saturating_sub(hashes.len()))
}

/// Adds the hashes of the complete subtrees above level `low` that end with the last of `size` entries. Those up to
/// `low` are there already, and `first` is the last of them.
pub(crate) fn push_higher<T: TreeHash, A: Allocator>(
    h: T,
    hashes: &mut Vec<Hash, A>,
    size: u64,
    low: u32,
    first: Hash,
)
    requires some { 0 < size }
    requires small { size < 2 ^ 32 }
    requires whole { size % 2 ^ low ≡ 0 }
    requires counted { length hashes.old.items ≡ stored_count (size - 1) + (low + 1) }
    requires room { stored_count size ≤ vec_capacity hashes.old }
    ensures counted { length hashes.new.items ≡ stored_count size }
    ensures added { (entries : List Bytes) (entry : Bytes)
        → length entries + 1 ≡ size
        → IsBegun T.digest_of size entries entry low hashes.old.items first
        → hashes.new.items ≡ stored_hashes T.digest_of (entries ++ entry ∷ []) }
    ensures capacity { vec_capacity hashes.new ≡ vec_capacity hashes.old }
{
    let levels = size.trailing_zeros();
    let mut hash = first;
    for level in low..levels {
        let left = stored_index(level, size / 2u64.pow(level) - 2);
        hash = node_hash(h, hashes[left as usize], hash);
        hashes.push_reserved(hash);
    }
}

// Adds one entry to the hashes of `size` entries.
pub(crate) fn push_entry<T: TreeHash, A: Allocator>(
    h: T,
    hashes: &mut Vec<Hash, A>,
    size: u64,
    entry: &[u8],
)
    requires small { size + 1 < 2 ^ 32 }
    requires counted { length hashes.old.items ≡ stored_count size }
    requires room { stored_count (size + 1) ≤ vec_capacity hashes.old }
    ensures added { AddsEntries T.digest_of size
        (entry.now ∷ []) hashes.old.items hashes.new.items }
    ensures capacity { vec_capacity hashes.new ≡ vec_capacity hashes.old }
{
    let leaf = leaf_hash(h, entry);
    hashes.push_reserved(leaf);
    push_higher(h, hashes, size + 1, 0, leaf);
}

// Adds entries to the hashes of `size` entries, one by one.
fn push_singly<T: TreeHash, A: Allocator, B: Allocator>(
    h: T,
    hashes: &mut Vec<Hash, A>,
    size: u64,
    entries: &[Vec<u8, B>],
)
    requires small { size + length entries.now < 2 ^ 32 }
    requires counted { length hashes.old.items ≡ stored_count size }
    requires room { stored_count (size + length entries.now) ≤ vec_capacity hashes.old }
    ensures added { AddsEntries T.digest_of size
        (map vec_items entries.now) hashes.old.items hashes.new.items }
    ensures capacity { vec_capacity hashes.new ≡ vec_capacity hashes.old }
{
    for (before, entry) in entries.iter().enumerate() {
        push_entry(h, hashes, size + before as u64, entry);
    }
}

// Adds entries to the hashes of `size` entries: sixteen at a time if 4 divides `size`, and the others one by one.
fn push_sixteens<T: TreeHash, A: Allocator, B: Allocator>(
    h: T,
    hashes: &mut Vec<Hash, A>,
    size: u64,
    entries: &[Vec<u8, B>],
)
    requires small { size + length entries.now < 2 ^ 32 }
    requires counted { length hashes.old.items ≡ stored_count size }
    requires room { stored_count (size + length entries.now) ≤ vec_capacity hashes.old }
    ensures added { AddsEntries T.digest_of size
        (map vec_items entries.now) hashes.old.items hashes.new.items }
    ensures capacity { vec_capacity hashes.new ≡ vec_capacity hashes.old }
{
    let mut count = size;
    let mut left = entries;
    while count % 4 == 0 && left.len() >= 16 {
        let (sixteen, rest) = left.split_at(16);
        push_sixteen(h, hashes, count, sixteen);
        count += 16;
        left = rest;
    }
    push_singly(h, hashes, count, left);
}

/// Adds entries to the hashes of `size` entries: one by one up to a multiple of four, and then sixteen at a time.
pub(crate) fn push_entries<T: TreeHash, A: Allocator, B: Allocator>(
    h: T,
    hashes: &mut Vec<Hash, A>,
    size: u64,
    entries: &[Vec<u8, B>],
)
    requires small { size + length entries.now < 2 ^ 32 }
    requires counted { length hashes.old.items ≡ stored_count size }
    requires room { stored_count (size + length entries.now) ≤ vec_capacity hashes.old }
    ensures added { AddsEntries T.digest_of size
        (map vec_items entries.now) hashes.old.items hashes.new.items }
    ensures capacity { vec_capacity hashes.new ≡ vec_capacity hashes.old }
{
    let before = entries.len().min((4 - size % 4) as usize % 4);
    let (first, rest) = entries.split_at(before);
    push_singly(h, hashes, size, first);
    push_sixteens(h, hashes, size + before as u64, rest);
}
