//! The hashes of a Merkle tree: of no entries, of one entry, of a node and of a whole list.

ghost use Rattle.std.specs.Prelude.{◌≡◌, [], length, map, vec_items};
ghost use Rattle.tl_hash.specs.Tree.{leaf_input, node_input, tree_hash};

use crate::digest::TreeHash;
use crate::hash::Hash;
use crate::quarters::quarters_root;
use crate::split::split_point;
use std::alloc::Allocator;

/// Returns the hash of no entries, H of no bytes (RFC 6962, section 2.1).
pub fn empty_hash<T: TreeHash>(h: T) -> Hash
    ensures { result ≡ T.digest_of [] }
{
    h.digest(&[], &[], &[])
}

/// Returns the hash of one entry, H(0x00 || entry) (RFC 6962, section 2.1).
pub fn leaf_hash<T: TreeHash>(h: T, entry: &[u8]) -> Hash
    ensures { result ≡ T.digest_of (leaf_input entry.now) }
{
    h.digest(&[0], entry, &[])
}

/// Returns the hash of a node over two hashes, H(0x01 || left || right) (RFC 6962, section 2.1).
pub fn node_hash<T: TreeHash>(h: T, left: Hash, right: Hash) -> Hash
    ensures { result ≡ T.digest_of (node_input left right) }
{
    h.digest(&[1], left.as_bytes(), right.as_bytes())
}

/// Returns the Merkle tree hash of a list of entries (RFC 6962, section 2.1). A part of 4 or more entries whose
/// number is a power of two is hashed by its quarters, side by side. It allocates nothing, and recurses once for each
/// level.
#[tactic(auto, using(crate::proofs::TreeLemmas::tree_hash_of_none))]
pub fn entry_root<T: TreeHash, A: Allocator>(h: T, entries: &[Vec<u8, A>]) -> Hash
    ensures { result ≡ tree_hash T.digest_of (map vec_items entries.now) }
{
    match entries.len() {
        0 => empty_hash(h),
        1 => leaf_hash(h, &entries[0]),
        n => {
            let k = split_point(n as u64) as usize;
            if k > 1 && n == 2 * k {
                return quarters_root(h, entries, k / 2);
            }
            let left = entry_root(h, &entries[..k]);
            let right = entry_root(h, &entries[k..]);
            node_hash(h, left, right)
        }
    }
}
