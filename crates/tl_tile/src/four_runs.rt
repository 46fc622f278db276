//! Runs of hashes of one length, folded side by side.

ghost use Rattle.std.specs.Prelude.{◌≡◌, ◌*◌, ◌<◌, List, [], length, map, slice_index_or};
ghost use Rattle.std.specs.Int.{IsPowerOfTwo};
ghost use Rattle.tl_hash.specs.Bytes.{Bytes};
ghost use Rattle.tl_hash.specs.Tree.{tree_hash};
ghost use Rattle.tl_tile.specs.Inner.Run.{part, Run, IsRun};
ghost use Rattle.tl_tile.specs.Inner.FoldsTo.{FoldsTo};

use tl_hash::{Hash, TreeHash, hash_level, leaf_hashes, node_hash, split_point};

// Returns the hashes that four runs of one length fold to: the recursion of `fold_run`, down the four in step.
fn fold_four<T: TreeHash>(h: T, a: &[Hash], b: &[Hash], c: &[Hash], d: &[Hash]) -> [Hash; 4]
    requires some { 0 < length a.now }
    requires b { length b.now ≡ length a.now }
    requires c { length c.now ≡ length a.now }
    requires d { length d.now ≡ length a.now }
    ensures a { FoldsTo T.digest_of a.now (slice_index_or result 0 []) }
    ensures b { FoldsTo T.digest_of b.now (slice_index_or result 1 []) }
    ensures c { FoldsTo T.digest_of c.now (slice_index_or result 2 []) }
    ensures d { FoldsTo T.digest_of d.now (slice_index_or result 3 []) }
{
    if a.len() == 1 {
        return [a[0], b[0], c[0], d[0]];
    }
    let k = split_point(a.len() as u64) as usize;
    let left = fold_four(h, &a[..k], &b[..k], &c[..k], &d[..k]);
    let right = fold_four(h, &a[k..], &b[k..], &c[k..], &d[k..]);
    hash_level(h, &left, &right)
}

// Returns the hash that `4 * quarter` hashes of a run fold to. Its quarters are folded side by side.
fn fold_quarters<T: TreeHash>(h: T, hashes: &[Hash], quarter: usize) -> Hash
    requires whole { length hashes.now ≡ 4 * quarter }
    requires power { IsPowerOfTwo quarter }
    requires some { 0 < quarter }
    ensures { FoldsTo T.digest_of hashes.now result }
{
    let (left, right) = hashes.split_at(2 * quarter);
    let (a, b) = left.split_at(quarter);
    let (c, d) = right.split_at(quarter);
    let four = fold_four(h, a, b, c, d);
    let first = node_hash(h, four[0], four[1]);
    let second = node_hash(h, four[2], four[3]);
    node_hash(h, first, second)
}

// Returns the hash over the 256 hashes of a full tile, the last of which is given apart.
pub(crate) fn fold_full<T: TreeHash>(h: T, hashes: &[Hash], last: Hash) -> Hash
    requires { length hashes.now ≡ 255 }
    ensures { (entries : List Bytes) (run : Run)
        → IsRun T.digest_of entries run hashes.now last
        → result ≡ tree_hash T.digest_of (part (run.place * run.width) run.end entries) }
{
    let mut all = [last; 256];
    all[..255].copy_from_slice(hashes);
    fold_quarters(h, &all, 64)
}

/// Returns the tree hash of the 256 entries of a tile (RFC 6962, section 2.1).
pub(crate) fn tile_root<T: TreeHash>(h: T, entries: &[&[u8]; 256]) -> Hash
    ensures { result ≡ tree_hash T.digest_of (map (λ entry. entry.now) entries.now) }
{
    let leaves = leaf_hashes(h, entries);
    fold_quarters(h, &leaves, 64)
}
