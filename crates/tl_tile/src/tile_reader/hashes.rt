//! The hashes in the texts of tiles, and the hashes that they fold to.

ghost use Rattle.std.specs.Prelude.{◌≡◌, ◌+◌, ◌*◌, ◌<◌, ◌≤◌, [], length, slice_index_or};
ghost use Rattle.std.specs.Int.{IsPowerOfTwo};
ghost use Rattle.tl_tile.specs.Folds.{IsHashAt};
ghost use Rattle.tl_tile.specs.Inner.EdgeRoot.{Part};

use tl_hash::{Hash, TreeHash, hash_level, node_hash, split_point};

// Returns the hash with this number in a tile's text.
pub(crate) fn hash_in(text: &[u8], number: usize) -> Hash
    requires { 32 * number + 32 ≤ length text.now }
    ensures { IsHashAt text.now number result }
{
    let mut bytes = [0u8; 32];
    bytes.copy_from_slice(&text[32 * number..32 * number + 32]);
    Hash::from_bytes(bytes)
}

// Returns the hashes that four parts of a tile's hashes fold to. Each part has `count` hashes; the first part begins
// at hash `start`, and each next one `apart` hashes later. The recursion goes down the four parts in step.
fn fold_four_parts<T: TreeHash>(
    h: T,
    text: &[u8],
    start: usize,
    apart: usize,
    count: usize,
) -> [Hash; 4]
    requires some { 0 < count }
    requires inside { 32 * (start + 3 * apart + count) ≤ length text.now }
    ensures a { Part T.digest_of text.now start count (slice_index_or result 0 []) }
    ensures b { Part T.digest_of text.now (start + apart) count (slice_index_or result 1 []) }
    ensures c { Part T.digest_of text.now (start + 2 * apart) count (slice_index_or result 2 []) }
    ensures d { Part T.digest_of text.now (start + 3 * apart) count (slice_index_or result 3 []) }
{
    if count == 1 {
        return [
            hash_in(text, start),
            hash_in(text, start + apart),
            hash_in(text, start + 2 * apart),
            hash_in(text, start + 3 * apart),
        ];
    }
    let k = split_point(count as u64) as usize;
    let left = fold_four_parts(h, text, start, apart, k);
    let right = fold_four_parts(h, text, start + k, apart, count - k);
    hash_level(h, &left, &right)
}

// Returns the hash that `4 * quarter` hashes of a tile fold to, from hash `start` on. Its quarters are folded side by
// side.
fn fold_quarters<T: TreeHash>(h: T, text: &[u8], start: usize, quarter: usize) -> Hash
    requires power { IsPowerOfTwo quarter }
    requires some { 0 < quarter }
    requires inside { 32 * (start + 4 * quarter) ≤ length text.now }
    ensures { Part T.digest_of text.now start (4 * quarter) result }
{
    let four = fold_four_parts(h, text, start, quarter, quarter);
    let left = node_hash(h, four[0], four[1]);
    let right = node_hash(h, four[2], four[3]);
    node_hash(h, left, right)
}

// Returns the hash that `count` hashes of a tile fold to, from hash `start` on. If `count` is a power of two and at
// least 4, the quarters are folded side by side.
pub(crate) fn fold_part<T: TreeHash>(h: T, text: &[u8], start: usize, count: usize) -> Hash
    requires some { 0 < count }
    requires inside { 32 * (start + count) ≤ length text.now }
    ensures { Part T.digest_of text.now start count result }
{
    if count == 1 {
        return hash_in(text, start);
    }
    let k = split_point(count as u64) as usize;
    if k > 1 && count == 2 * k {
        return fold_quarters(h, text, start, k / 2);
    }
    let left = fold_part(h, text, start, k);
    let right = fold_part(h, text, start + k, count - k);
    node_hash(h, left, right)
}
