//! Sixteen entries added together, as four quads that are hashed side by side.

ghost use Rattle.std.specs.Prelude.{◌≡◌, ◌≤◌, ◌<◌, ◌+◌, ◌*◌, ◌%◌, ◌^◌, [], ◌++◌, List, length, map, slice_index_or, vec_items, vec_capacity};
ghost use Rattle.tl_hash.specs.Bytes.{Bytes};
ghost use Rattle.tl_store.specs.Stored.{stored_count, stored_hashes};
ghost use Rattle.tl_store.specs.Inner.Adds.{AddsEntries};
ghost use Rattle.tl_store.specs.Inner.Quads.{IsLeafAt, quad_of};

use crate::pushes::push_higher;
use std::alloc::Allocator;
use tl_hash::{Hash, TreeHash, hash_level};

// The hashes of the complete subtrees over four quads, which have four entries each: the four leaves, the nodes over
// the first two and the last two, and the node at the top. Each field has one hash for each quad.
#[derive(Clone, Copy)]
struct FourQuads {
    first: [Hash; 4],
    second: [Hash; 4],
    left: [Hash; 4],
    third: [Hash; 4],
    fourth: [Hash; 4],
    right: [Hash; 4],
    top: [Hash; 4],
}

impl FourQuads {
    // Returns the hashes of one quad, in the order in which they are stored.
    fn of(&self, lane: usize) -> [Hash; 7]
        requires { lane < 4 }
        ensures { result ≡ quad_of self.now lane }
    {
        [
            self.first[lane],
            self.second[lane],
            self.left[lane],
            self.third[lane],
            self.fourth[lane],
            self.right[lane],
            self.top[lane],
        ]
    }
}

// Hashes four leaves side by side: the entry at one place of each of four lists.
fn leaves_at<T: TreeHash, A: Allocator>(
    h: T,
    place: usize,
    a: &[Vec<u8, A>],
    b: &[Vec<u8, A>],
    c: &[Vec<u8, A>],
    d: &[Vec<u8, A>],
) -> [Hash; 4]
    requires a { place < length a.now }
    requires b { place < length b.now }
    requires c { place < length c.now }
    requires d { place < length d.now }
    ensures a { IsLeafAt vec_items T.digest_of a.now place (slice_index_or result 0 []) }
    ensures b { IsLeafAt vec_items T.digest_of b.now place (slice_index_or result 1 []) }
    ensures c { IsLeafAt vec_items T.digest_of c.now place (slice_index_or result 2 []) }
    ensures d { IsLeafAt vec_items T.digest_of d.now place (slice_index_or result 3 []) }
{
    h.digest_four(0, &a[place], &b[place], &c[place], &d[place])
}

// Hashes four quads of entries, side by side.
fn four_quads<T: TreeHash, A: Allocator>(
    h: T,
    a: &[Vec<u8, A>],
    b: &[Vec<u8, A>],
    c: &[Vec<u8, A>],
    d: &[Vec<u8, A>],
) -> FourQuads
    requires a { length a.now ≡ 4 }
    requires b { length b.now ≡ 4 }
    requires c { length c.now ≡ 4 }
    requires d { length d.now ≡ 4 }
    ensures a { quad_of result 0 ≡ stored_hashes T.digest_of (map vec_items a.now) }
    ensures b { quad_of result 1 ≡ stored_hashes T.digest_of (map vec_items b.now) }
    ensures c { quad_of result 2 ≡ stored_hashes T.digest_of (map vec_items c.now) }
    ensures d { quad_of result 3 ≡ stored_hashes T.digest_of (map vec_items d.now) }
{
    let first = leaves_at(h, 0, a, b, c, d);
    let second = leaves_at(h, 1, a, b, c, d);
    let third = leaves_at(h, 2, a, b, c, d);
    let fourth = leaves_at(h, 3, a, b, c, d);
    let left = hash_level(h, &first, &second);
    let right = hash_level(h, &third, &fourth);
    let top = hash_level(h, &left, &right);
    FourQuads {
        first,
        second,
        left,
        third,
        fourth,
        right,
        top,
    }
}

// Adds hashes. There must be room for them.
fn push_known<A: Allocator>(hashes: &mut Vec<Hash, A>, known: &[Hash])
    requires { length hashes.old.items + length known.now ≤ vec_capacity hashes.old }
    ensures items { hashes.new.items ≡ hashes.old.items ++ known.now }
    ensures capacity { vec_capacity hashes.new ≡ vec_capacity hashes.old }
{
    for hash in known {
        hashes.push_reserved(*hash);
    }
}

// Adds the entries of one of four quads to the hashes of `size` entries.
fn push_quad<T: TreeHash, A: Allocator>(
    h: T,
    hashes: &mut Vec<Hash, A>,
    size: u64,
    quads: &FourQuads,
    lane: usize,
)
    requires lane { lane < 4 }
    requires whole { size % 4 ≡ 0 }
    requires small { size + 4 < 2 ^ 32 }
    requires counted { length hashes.old.items ≡ stored_count size }
    requires room { stored_count (size + 4) ≤ vec_capacity hashes.old }
    ensures added { (entries : List Bytes)
        → length entries ≡ 4
        → quad_of quads.now lane ≡ stored_hashes T.digest_of entries
        → AddsEntries T.digest_of size entries hashes.old.items hashes.new.items }
    ensures counted { length hashes.new.items ≡ stored_count (size + 4) }
    ensures capacity { vec_capacity hashes.new ≡ vec_capacity hashes.old }
{
    let quad = quads.of(lane);
    push_known(hashes, &quad);
    push_higher(h, hashes, size + 4, 2, quad[6]);
}

/// Adds sixteen entries to the hashes of `size` entries. 4 divides `size`.
pub(crate) fn push_sixteen<T: TreeHash, A: Allocator, B: Allocator>(
    h: T,
    hashes: &mut Vec<Hash, A>,
    size: u64,
    entries: &[Vec<u8, B>],
)
    requires many { length entries.now ≡ 16 }
    requires whole { size % 4 ≡ 0 }
    requires small { size + 16 < 2 ^ 32 }
    requires counted { length hashes.old.items ≡ stored_count size }
    requires room { stored_count (size + 16) ≤ vec_capacity hashes.old }
    ensures added { AddsEntries T.digest_of size
        (map vec_items entries.now) hashes.old.items hashes.new.items }
    ensures capacity { vec_capacity hashes.new ≡ vec_capacity hashes.old }
{
    let (left, right) = entries.split_at(8);
    let (a, b) = left.split_at(4);
    let (c, d) = right.split_at(4);
    let quads = four_quads(h, a, b, c, d);
    push_quad(h, hashes, size, &quads, 0);
    push_quad(h, hashes, size + 4, &quads, 1);
    push_quad(h, hashes, size + 8, &quads, 2);
    push_quad(h, hashes, size + 12, &quads, 3);
}
