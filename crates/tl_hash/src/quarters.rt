//! Trees over four lists of one length, hashed side by side.

ghost use Rattle.std.specs.Prelude.{◌≡◌, ◌*◌, ◌<◌, [], length, map, slice_index_or, vec_items};
ghost use Rattle.std.specs.Int.{IsPowerOfTwo};
ghost use Rattle.tl_hash.specs.Tree.{tree_hash};

use crate::digest::TreeHash;
use crate::hash::Hash;
use crate::nodes::hash_level;
use crate::split::split_point;
use crate::tree::node_hash;
use std::alloc::Allocator;

/// Returns the Merkle tree hashes of four lists with the same number of entries, at least one (RFC 6962, section
/// 2.1). The recursion goes down the four lists in step.
pub(crate) fn four_roots<T: TreeHash, A: Allocator>(
    h: T,
    a: &[Vec<u8, A>],
    b: &[Vec<u8, A>],
    c: &[Vec<u8, A>],
    d: &[Vec<u8, A>],
) -> [Hash; 4]
    requires some { 0 < length a.now }
    requires b { length b.now ≡ length a.now }
    requires c { length c.now ≡ length a.now }
    requires d { length d.now ≡ length a.now }
    ensures a { slice_index_or result 0 [] ≡ tree_hash T.digest_of (map vec_items a.now) }
    ensures b { slice_index_or result 1 [] ≡ tree_hash T.digest_of (map vec_items b.now) }
    ensures c { slice_index_or result 2 [] ≡ tree_hash T.digest_of (map vec_items c.now) }
    ensures d { slice_index_or result 3 [] ≡ tree_hash T.digest_of (map vec_items d.now) }
{
    if a.len() == 1 {
        return h.digest_four(0, &a[0], &b[0], &c[0], &d[0]);
    }
    let k = split_point(a.len() as u64) as usize;
    let left = four_roots(h, &a[..k], &b[..k], &c[..k], &d[..k]);
    let right = four_roots(h, &a[k..], &b[k..], &c[k..], &d[k..]);
    hash_level(h, &left, &right)
}

/// Returns the Merkle tree hash of a list of `4 * q` entries (RFC 6962, section 2.1). Its four quarters are hashed
/// side by side. `q` is a power of two.
pub(crate) fn quarters_root<T: TreeHash, A: Allocator>(
    h: T,
    entries: &[Vec<u8, A>],
    q: usize,
) -> Hash
    requires whole { length entries.now ≡ 4 * q }
    requires power { IsPowerOfTwo q }
    requires some { 0 < q }
    ensures { result ≡ tree_hash T.digest_of (map vec_items entries.now) }
{
    let (left, right) = entries.split_at(2 * q);
    let (a, b) = left.split_at(q);
    let (c, d) = right.split_at(q);
    let four = four_roots(h, a, b, c, d);
    let first = node_hash(h, four[0], four[1]);
    let second = node_hash(h, four[2], four[3]);
    node_hash(h, first, second)
}
