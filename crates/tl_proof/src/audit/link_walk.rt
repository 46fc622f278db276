//! The check of a consistency proof, followed beside the tree of a list.

ghost use Rattle.std.specs.Prelude.{◌≡◌, ◌<◌, ◌≤◌, reverse, length, take, map, vec_items, option_map, MatchOption};
ghost use Rattle.tl_hash.specs.Tree.{node_input, tree_hash, inputs};
ghost use Rattle.tl_proof.specs.Acceptance.{roots_from, AcceptsConsistency};
ghost use Rattle.tl_proof.specs.Collisions.{fold_inputs};
ghost use Rattle.tl_proof.specs.Inner.Forks.{SameOrForks, fork_of, IsForkOver, IsCheckWalk};

use crate::audit::exhibits::walk_to;
use crate::audit::fork::{CheckWalk, Fork};
use crate::check::lead_roots;
use std::alloc::Allocator;
use tl_hash::{Hash, TreeHash, entry_root, node_hash, split_point};

// Returns the walk that ends with these two roots of a check, beside the root of a list.
fn walk_of(roots: Option<(Hash, Hash)>, list: Hash) -> Option<CheckWalk>
    ensures { result ≡ option_map
        (λ r. record { old = r.0; new = r.1; list = list; fork = None }) roots }
{
    match roots {
        Some((old, new)) => Some(CheckWalk {
            old,
            new,
            list,
            fork: None,
        }),
        None => None,
    }
}

// Returns the walk one level above the left part of a list. To its right are `last`, a hash of the proof, and
// `beside`, the hash of the list's other part.
fn over_left<T: TreeHash>(h: T, below: CheckWalk, last: Hash, beside: Hash) -> CheckWalk
    ensures old { result.old ≡ below.old }
    ensures new { result.new ≡ T.digest_of (node_input below.new last) }
    ensures list { result.list ≡ T.digest_of (node_input below.list beside) }
    ensures fork { IsForkOver (fork_of below.new last below.list beside) below.fork result.fork }
{
    let walk = walk_to(h, (below.new, last), (below.list, beside), below.fork);
    CheckWalk {
        old: below.old,
        new: walk.first,
        list: walk.second,
        fork: walk.fork,
    }
}

// Returns the walk one level above the right part of a list. To its left are `last`, a hash of the proof, and
// `beside`, the hash of the list's other part.
fn over_right<T: TreeHash>(h: T, last: Hash, beside: Hash, below: CheckWalk) -> CheckWalk
    ensures old { result.old ≡ T.digest_of (node_input last below.old) }
    ensures new { result.new ≡ T.digest_of (node_input last below.new) }
    ensures list { result.list ≡ T.digest_of (node_input beside below.list) }
    ensures fork { IsForkOver (fork_of last below.new beside below.list) below.fork result.fork }
{
    let walk = walk_to(h, (last, below.new), (beside, below.list), below.fork);
    CheckWalk {
        old: node_hash(h, last, below.old),
        new: walk.first,
        list: walk.second,
        fork: walk.fork,
    }
}

// Returns the walk down the check of a proof beside the tree of a list. Each entry is hashed once, each part beside
// the path on its own. The recursion is at most 64 calls deep, as in the check.
fn walk_check<T: TreeHash, B: Allocator>(
    h: T,
    old: usize,
    known: bool,
    proof: &[Hash],
    root: Hash,
    list: &[Vec<u8, B>],
) -> Option<CheckWalk>
    requires some { 0 < old }
    requires most { old ≤ length list.now }
    ensures { MatchOption result (roots_from T.digest_of old
        (length (map vec_items list.now)) known (reverse proof.now) root ≡ None) (λ walk.
        IsCheckWalk T.digest_of old known (reverse proof.now) root (map vec_items list.now) walk) }
{
    let n = proof.len();
    if n == 0 || old == list.len() {
        let roots = lead_roots(h, old as u64, list.len() as u64, known, proof, root);
        return walk_of(roots, entry_root(h, list));
    }
    let last = proof[n - 1];
    let k = split_point(list.len() as u64) as usize;
    if old <= k {
        let right = entry_root(h, &list[k..]);
        match walk_check(h, old, known, &proof[..n - 1], root, &list[..k]) {
            Some(below) => Some(over_left(h, below, last, right)),
            None => None,
        }
    } else {
        let left = entry_root(h, &list[..k]);
        match walk_check(h, old - k, false, &proof[..n - 1], root, &list[k..]) {
            Some(below) => Some(over_right(h, last, left, below)),
            None => None,
        }
    }
}

/// Returns two nodes that collide if the old root isn't that of the list's first `old` entries: one of the check of
/// an accepted proof, and one of the tree of the list, whose root the proof leads to. Returns `None` if it is.
pub(crate) fn fork_in_link<T: TreeHash, B: Allocator>(
    h: T,
    proof: &[Hash],
    old: usize,
    old_root: Hash,
    list: &[Vec<u8, B>],
) -> Option<Fork>
    requires { old ≤ length list.now }
    ensures { AcceptsConsistency T.digest_of proof.now (length (map vec_items list.now))
        (tree_hash T.digest_of (map vec_items list.now)) old old_root → SameOrForks
        T.digest_of result old_root (tree_hash T.digest_of (take old (map vec_items list.now)))
        (fold_inputs T.digest_of old (length (map vec_items list.now)) proof.now old_root)
        (inputs T.digest_of (map vec_items list.now)) }
{
    if old == 0 {
        return None;
    }
    if old == list.len() {
        return None;
    }
    match walk_check(h, old, true, proof, old_root, list) {
        Some(walk) => walk.fork,
        None => None,
    }
}
