//! The hashes of many nodes of a tree, four at a time.

ghost use Rattle.std.specs.Prelude.{◌≡◌, ℕ, ◌+◌, ◌*◌, ◌<◌, ◌≤◌, [], length, slice_index_or};
ghost use Rattle.tl_hash.specs.Tree.{node_input};

use crate::digest::TreeHash;
use crate::hash::Hash;

/// Returns the hashes of four nodes (RFC 6962, section 2.1). Node `j`, counted from 0, is over `left[j]` and
/// `right[j]`.
pub fn hash_level<T: TreeHash>(h: T, left: &[Hash; 4], right: &[Hash; 4]) -> [Hash; 4]
    ensures { (j : ℕ) → j < 4 → slice_index_or result j []
        ≡ T.digest_of (node_input (slice_index_or left.now j []) (slice_index_or right.now j [])) }
{
    let pairs = [
        left[0], right[0], left[1], right[1], left[2], right[2], left[3], right[3],
    ];
    h.digest_pairs(1, &pairs)
}

/// Returns the hashes of the nodes over four pairs of neighbours of a level (RFC 6962, section 2.1). Node `j`,
/// counted from 0, is over `level[from + 2 * j]` and the hash after it. `level` has at least `from + 8` hashes.
pub fn hash_four_nodes<T: TreeHash>(h: T, level: &[Hash], from: usize) -> [Hash; 4]
    requires { from + 8 ≤ length level.now }
    ensures { (j : ℕ) → j < 4 → slice_index_or result j []
        ≡ T.digest_of (node_input (slice_index_or level.now (from + 2 * j) [])
        (slice_index_or level.now (from + 2 * j + 1) [])) }
{
    let eight = [
        level[from],
        level[from + 1],
        level[from + 2],
        level[from + 3],
        level[from + 4],
        level[from + 5],
        level[from + 6],
        level[from + 7],
    ];
    h.digest_pairs(1, &eight)
}
