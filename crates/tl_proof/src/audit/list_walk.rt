//! Two lists: the first place at which they differ, and the walk down their trees to that place.

ghost use Rattle.std.specs.Prelude.{◌≡◌, ◌<◌, ◌≤◌, ◌↔◌, length, map, vec_items, IsTrue, MatchOption};
ghost use Rattle.tl_proof.specs.Collisions.{IsPrefix};
ghost use Rattle.tl_proof.specs.Inner.Forks.{DifferAt, IsListsWalk};

use crate::audit::exhibits::walk_to;
use crate::audit::fork::Walk;
use std::alloc::Allocator;
use tl_hash::{Hash, TreeHash, entry_root, leaf_hash, split_point};

// Reports whether two byte strings are the same.
fn same_bytes(a: &[u8], b: &[u8]) -> bool
    ensures { IsTrue result ↔ (a.now ≡ b.now) }
{
    a == b
}

/// Returns the first place at which the old list differs from the new one, which is at least as long, or `None` if
/// the old list is a prefix.
pub(crate) fn first_difference<B: Allocator>(
    old: &[Vec<u8, B>],
    new: &[Vec<u8, B>],
) -> Option<usize>
    requires { length old.now ≤ length new.now }
    ensures { MatchOption result
        (IsPrefix (map vec_items old.now) (map vec_items new.now))
        (λ place. DifferAt (map vec_items old.now) (map vec_items new.now) place) }
{
    for i in 0..old.len() {
        if !same_bytes(old[i].as_slice(), new[i].as_slice()) {
            return Some(i);
        }
    }
    None
}

/// Returns the walk down the trees of two lists of one length to one place. Each entry is hashed once, each part
/// beside the path on its own. The recursion is at most 64 calls deep.
pub(crate) fn walk_lists<T: TreeHash, B: Allocator>(
    h: T,
    place: usize,
    old: &[Vec<u8, B>],
    new: &[Vec<u8, B>],
) -> Walk
    requires within { place < length old.now }
    requires one_length { length old.now ≡ length new.now }
    ensures { IsListsWalk T.digest_of place (map vec_items old.now) (map vec_items new.now) result }
{
    let n = old.len();
    if n == 1 {
        return Walk {
            first: leaf_hash(h, old[0].as_slice()),
            second: leaf_hash(h, new[0].as_slice()),
            fork: None,
        };
    }
    let k = split_point(n as u64) as usize;
    if place < k {
        let old_rest = entry_root(h, &old[k..]);
        let new_rest = entry_root(h, &new[k..]);
        let below = walk_lists(h, place, &old[..k], &new[..k]);
        walk_to(
            h,
            (below.first, old_rest),
            (below.second, new_rest),
            below.fork,
        )
    } else {
        let old_first = entry_root(h, &old[..k]);
        let new_first = entry_root(h, &new[..k]);
        let below = walk_lists(h, place - k, &old[k..], &new[k..]);
        walk_to(
            h,
            (old_first, below.first),
            (new_first, below.second),
            below.fork,
        )
    }
}
