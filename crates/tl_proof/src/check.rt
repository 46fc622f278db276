//! Checks of inclusion and consistency proofs.

ghost use Rattle.std.specs.Prelude.{◌≡◌, ◌<◌, ◌≤◌, ◌↔◌, IsTrue, reverse, length, option_map, ℕ, List, []};
ghost use Rattle.tl_hash.specs.Tree.{node_input};
ghost use Rattle.tl_proof.specs.Acceptance.{root_from_leaf, roots_from, roots_of_whole, roots_on_left, roots_on_right, AcceptsInclusion, AcceptsConsistency};

use tl_hash::{Hash, TreeHash, empty_hash, node_hash, split_point};

// Returns the node over a root, if there is one, and a hash to its right.
fn join_right<T: TreeHash>(h: T, below: Option<Hash>, right: Hash) -> Option<Hash>
    ensures { result ≡ option_map (λ root. T.digest_of (node_input root right)) below }
{
    match below {
        Some(root) => Some(node_hash(h, root, right)),
        None => None,
    }
}

// Returns the node over a hash and a root to its right, if there is one.
fn join_left<T: TreeHash>(h: T, left: Hash, below: Option<Hash>) -> Option<Hash>
    ensures { result ≡ option_map (λ root. T.digest_of (node_input left root)) below }
{
    match below {
        Some(root) => Some(node_hash(h, left, root)),
        None => None,
    }
}

// Returns the root of `size` leaves that the proof leads to from the leaf at this index. It goes down from the root
// with the last hash of the proof. Each call at least halves the size or leaves the left part out, so the recursion
// is at most 64 calls deep for any u64.
fn lead_leaf<T: TreeHash>(h: T, index: u64, size: u64, proof: &[Hash], start: Hash) -> Option<Hash>
    ensures { result ≡ root_from_leaf T.digest_of index size (reverse proof.now) start }
{
    let n = proof.len();
    if n == 0 {
        return if size == 1 { Some(start) } else { None };
    }
    let last = proof[n - 1];
    if size <= 1 {
        return None;
    }
    let k = split_point(size);
    if index < k {
        join_right(h, lead_leaf(h, index, k, &proof[..n - 1], start), last)
    } else {
        join_left(
            h,
            last,
            lead_leaf(h, index - k, size - k, &proof[..n - 1], start),
        )
    }
}

/// Reports whether two hashes are the same.
pub(crate) fn same(a: Hash, b: Hash) -> bool
    ensures { IsTrue result ↔ (a ≡ b) }
{
    a == b
}

// Reports whether a root was found and is this one.
fn found_root(found: Option<Hash>, root: Hash) -> bool
    ensures { IsTrue result ↔ (found ≡ Some root) }
{
    match found {
        Some(hash) => same(hash, root),
        None => false,
    }
}

// Reports whether roots were found and are these.
fn found_roots(found: Option<(Hash, Hash)>, old_root: Hash, root: Hash) -> bool
    ensures { IsTrue result ↔ (found ≡ Some (old_root, root)) }
{
    match found {
        Some((old, new)) => same(old, old_root) && same(new, root),
        None => false,
    }
}

/// Reports whether the proof is accepted for the leaf hash at this index, counted from 0, under the root of `size`
/// entries (RFC 6962, section 2.1.1). It allocates nothing, and takes one digest for each hash that it uses; its
/// recursion is at most 64 calls deep.
pub fn check_record<T: TreeHash>(
    h: T,
    proof: &[Hash],
    size: u64,
    root: Hash,
    index: u64,
    leaf: Hash,
) -> bool
    ensures { IsTrue result ↔ AcceptsInclusion T.digest_of proof.now size root index leaf }
{
    index < size && found_root(lead_leaf(h, index, size, proof, leaf), root)
}

// Returns the old root as it is, and the node over the new root and a hash to its right.
fn join_new<T: TreeHash>(h: T, below: Option<(Hash, Hash)>, right: Hash) -> Option<(Hash, Hash)>
    ensures { result ≡ option_map (roots_on_left T.digest_of right) below }
{
    match below {
        Some((old, new)) => Some((old, node_hash(h, new, right))),
        None => None,
    }
}

// Returns the nodes over a hash and each of the two roots to its right.
fn join_both<T: TreeHash>(h: T, left: Hash, below: Option<(Hash, Hash)>) -> Option<(Hash, Hash)>
    ensures { result ≡ option_map (roots_on_right T.digest_of left) below }
{
    match below {
        Some((old, new)) => Some((node_hash(h, left, old), node_hash(h, left, new))),
        None => None,
    }
}

// Returns the only hash of a proof as the old and the new root, or `None` if the proof has more hashes, or if the old
// root is `known`.
fn only_hash(known: bool, proof: &[Hash]) -> Option<(Hash, Hash)>
    requires { 0 < length proof.now }
    ensures { result ≡ roots_of_whole known (reverse proof.now) }
{
    if known || proof.len() > 1 {
        None
    } else {
        Some((proof[0], proof[0]))
    }
}

/// Returns the old and the new root that the proof leads to. The recursion is at most 64 calls deep for any u64, as
/// in `lead_leaf`.
pub(crate) fn lead_roots<T: TreeHash>(
    h: T,
    old: u64,
    new: u64,
    known: bool,
    proof: &[Hash],
    root: Hash,
) -> Option<(Hash, Hash)>
    requires some { 0 < old }
    requires most { old ≤ new }
    ensures { result ≡ roots_from T.digest_of old new known (reverse proof.now) root }
{
    let n = proof.len();
    if n == 0 {
        return if old == new && known {
            Some((root, root))
        } else {
            None
        };
    }
    let last = proof[n - 1];
    if old == new {
        return only_hash(known, proof);
    }
    let k = split_point(new);
    if old <= k {
        join_new(h, lead_roots(h, old, k, known, &proof[..n - 1], root), last)
    } else {
        join_both(
            h,
            last,
            lead_roots(h, old - k, new - k, false, &proof[..n - 1], root),
        )
    }
}

// Reports whether the proof is empty and two roots are the same.
fn empty_and_same(proof: &[Hash], a: Hash, b: Hash) -> bool
    ensures { IsTrue result ↔ ((proof.now ≡ []) × (a ≡ b)) }
{
    match proof.first() {
        Some(_) => false,
        None => same(a, b),
    }
}

/// Reports whether the proof is accepted from the old size and root to the new ones (RFC 6962, section 2.1.2). From
/// the old size 0, whose root is the hash of no bytes, and between equal sizes and roots only the empty proof is
/// accepted. It allocates nothing, and takes one digest for each hash that it uses, or two if both roots grow; its
/// recursion is at most 64 calls deep.
pub fn check_tree<T: TreeHash>(
    h: T,
    proof: &[Hash],
    size: u64,
    root: Hash,
    old: u64,
    old_root: Hash,
) -> bool
    ensures { IsTrue result ↔ AcceptsConsistency T.digest_of proof.now size root old old_root }
{
    if old == size {
        empty_and_same(proof, old_root, root)
    } else if old == 0 {
        empty_and_same(proof, old_root, empty_hash(h))
    } else if old < size {
        found_roots(
            lead_roots(h, old, size, true, proof, old_root),
            old_root,
            root,
        )
    } else {
        false
    }
}
