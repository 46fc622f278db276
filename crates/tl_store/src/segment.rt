//! Tree hashes of parts of the entries, from stored hashes.

ghost use Rattle.std.specs.Prelude.{◌≡◌, ◌<◌, ◌≤◌, ◌+◌, ◌-◌, ◌^◌, ℕ, List, [], take, drop, map, length, vec_len, vec_capacity, IfOk, OnErr};
ghost use Rattle.std.specs.Int.RustNames.{count_ones};
ghost use Rattle.tl_hash.specs.Bytes.{Bytes};
ghost use Rattle.tl_hash.specs.Tree.{tree_hash};
ghost use Rattle.tl_store.specs.Stored.{stored_hash};
ghost use Rattle.tl_store.specs.Head.{IsAligned, AreCovering, AddsCovering};

use crate::index::stored_index;
use std::alloc::{AllocError, Allocator};
use tl_hash::{Hash, TreeHash, empty_hash, node_hash};

/// Adds the numbers of the complete subtrees that cover the entries from `start` up to `end`, from left to right,
/// which is from the largest to the smallest: one for each binary digit 1 of `end - start`. `start` is a multiple of
/// a power of two that is at least `end - start`, and `end` is at most 2^62. The list must have room for them;
/// nothing is allocated.
pub fn cover_indexes<A: Allocator>(indexes: &mut Vec<u64, A>, start: u64, end: u64)
    requires order { start ≤ end }
    requires aligned { IsAligned start end }
    requires small { end ≤ 2 ^ 62 }
    requires room { vec_len indexes.old + count_ones (end - start) ≤ vec_capacity indexes.old }
    ensures covering { AddsCovering start end indexes.old.items indexes.new.items }
    ensures count { vec_len indexes.new ≡ vec_len indexes.old + count_ones (end - start) }
    ensures capacity { vec_capacity indexes.new ≡ vec_capacity indexes.old }
{
    let mut covered = start;
    while covered < end {
        let level = (end - covered).ilog2();
        let width = 2u64.pow(level);
        indexes.push_reserved(stored_index(level, covered / width));
        covered += width;
    }
}

/// Returns the numbers of the complete subtrees that cover the entries from `start` up to `end`, in the order of
/// `cover_indexes`. It allocates once, or not at all if there is no entry.
pub fn segment_indexes<A: Allocator>(
    alloc: A,
    start: u64,
    end: u64,
) -> Result<Vec<u64, A>, AllocError>
    requires order { start ≤ end }
    requires aligned { IsAligned start end }
    requires small { end ≤ 2 ^ 62 }
    ensures covering { IfOk result (λ indexes. AreCovering start end indexes.items) }
    ensures count { IfOk result (λ indexes. length indexes.items ≡ count_ones (end - start)) }
    ensures some { OnErr result (start < end) }
{
    let count = (end - start).count_ones() as usize;
    let mut indexes = Vec::new(alloc);
    indexes.reserve(count)?;
    cover_indexes(&mut indexes, start, end);
    Ok(indexes)
}

/// Returns the tree hash (RFC 6962, section 2.1) of entries that complete subtrees with these hashes cover, from the
/// largest to the smallest. Each subtree is the left part of a node whose right part is over all entries after it.
pub fn cover_hash<T: TreeHash>(h: T, hashes: &[Hash]) -> Hash
    ensures { (entries : List Bytes) (start end : ℕ) (indexes : List ℕ)
        → AreCovering start end indexes → end ≤ length entries
        → hashes.now ≡ map (stored_hash T.digest_of entries) indexes
        → result ≡ tree_hash T.digest_of (take (end - start) (drop start entries)) }
{
    let mut count = hashes.len();
    if count == 0 {
        return empty_hash(h);
    }
    count -= 1;
    let mut root = hashes[count];
    while count > 0 {
        count -= 1;
        root = node_hash(h, hashes[count], root);
    }
    root
}
