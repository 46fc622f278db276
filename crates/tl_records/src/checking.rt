//! Checks of many inclusion proofs, four at a time.

ghost use Rattle.std.specs.Prelude.{◌≡◌, ◌<◌, ◌↔◌, IsTrue, IfSome, All, Some, reverse, length, option_map, slice_index_or, if◌then◌else◌, [], ◌∷◌, List};
ghost use Rattle.tl_hash.specs.Bytes.{Bytes, Digest};
ghost use Rattle.tl_proof.specs.Acceptance.{root_from_leaf, AcceptsInclusion};
ghost use Rattle.tl_records.specs.Inner.Lanes.{LeadsTo, lane_root, node_with};

use tl_hash::{Hash, TreeHash, hash_level, split_point};
use tl_proof::check_record;

/// A claim that the entry at `index`, counted from 0, has this leaf hash, with its inclusion proof (PATH of RFC 6962,
/// section 2.1.1). The proof begins with the hash nearest to the leaf.
#[derive(Clone, Copy)]
pub struct InclusionClaim<'a> {
    /// The index of the entry, counted from 0.
    pub index: u64,
    /// The leaf hash of the entry.
    pub leaf: Hash,
    /// The inclusion proof of the entry.
    pub proof: &'a [Hash],
}

// The leaf that a proof is about: its index in a tree of `size` leaves, and its hash.
#[derive(Clone, Copy)]
struct ClaimWalk {
    index: u64,
    size: u64,
    leaf: Hash,
}

// The leaves that four proofs are about.
#[derive(Clone, Copy)]
struct Lanes {
    a: ClaimWalk,
    b: ClaimWalk,
    c: ClaimWalk,
    d: ClaimWalk,
}

// The step from a root down to the part of the tree with the leaf: the left part or the right one.
#[derive(Clone, Copy)]
struct Turn {
    below: ClaimWalk,
    on_left: bool,
}

// Returns the four leaves, if each of them is a whole tree.
fn only_leaves(lanes: Lanes) -> Option<[Hash; 4]>
    ensures a { IfSome result
        (λ roots. (H : Digest) → lane_root H lanes.a [] ≡ Some (slice_index_or roots 0 [])) }
    ensures b { IfSome result
        (λ roots. (H : Digest) → lane_root H lanes.b [] ≡ Some (slice_index_or roots 1 [])) }
    ensures c { IfSome result
        (λ roots. (H : Digest) → lane_root H lanes.c [] ≡ Some (slice_index_or roots 2 [])) }
    ensures d { IfSome result
        (λ roots. (H : Digest) → lane_root H lanes.d [] ≡ Some (slice_index_or roots 3 [])) }
{
    if lanes.a.size == 1 && lanes.b.size == 1 && lanes.c.size == 1 && lanes.d.size == 1 {
        Some([lanes.a.leaf, lanes.b.leaf, lanes.c.leaf, lanes.d.leaf])
    } else {
        None
    }
}

// Returns the step from the root of a tree, or `None` if the tree has no parts.
fn last_turn(lane: ClaimWalk) -> Option<Turn>
    ensures { IfSome result (λ turn.
        (H : Digest) (last : Bytes) (others : List Bytes) → lane_root H lane (last ∷ others)
        ≡ option_map (node_with H turn.on_left last) (lane_root H turn.below others)) }
{
    if lane.size <= 1 {
        return None;
    }
    let k = split_point(lane.size);
    if lane.index < k {
        let below = ClaimWalk { size: k, ..lane };
        Some(Turn {
            below,
            on_left: true,
        })
    } else {
        let below = ClaimWalk {
            index: lane.index - k,
            size: lane.size - k,
            ..lane
        };
        Some(Turn {
            below,
            on_left: false,
        })
    }
}

// Returns the left and the right child of a node. The leaf is below `root`, on the side that `on_left` says.
fn children(on_left: bool, root: Hash, beside: Hash) -> (Hash, Hash)
    ensures left { result.0 ≡ (if on_left then root else beside) }
    ensures right { result.1 ≡ (if on_left then beside else root) }
{
    if on_left {
        (root, beside)
    } else {
        (beside, root)
    }
}

// Returns the roots that four proofs of one length lead to, or `None` if one of them leads to none. It goes down from
// the four roots in step, as the check of one proof does.
fn lead_four<T: TreeHash>(
    h: T,
    lanes: Lanes,
    a: &[Hash],
    b: &[Hash],
    c: &[Hash],
    d: &[Hash],
) -> Option<[Hash; 4]>
    requires b { length b.now ≡ length a.now }
    requires c { length c.now ≡ length a.now }
    requires d { length d.now ≡ length a.now }
    ensures a { IfSome result (λ r. LeadsTo T.digest_of lanes.a a.now (slice_index_or r 0 [])) }
    ensures b { IfSome result (λ r. LeadsTo T.digest_of lanes.b b.now (slice_index_or r 1 [])) }
    ensures c { IfSome result (λ r. LeadsTo T.digest_of lanes.c c.now (slice_index_or r 2 [])) }
    ensures d { IfSome result (λ r. LeadsTo T.digest_of lanes.d d.now (slice_index_or r 3 [])) }
{
    let n = a.len();
    if n == 0 {
        return only_leaves(lanes);
    }
    let first = last_turn(lanes.a)?;
    let second = last_turn(lanes.b)?;
    let third = last_turn(lanes.c)?;
    let fourth = last_turn(lanes.d)?;
    let below = Lanes {
        a: first.below,
        b: second.below,
        c: third.below,
        d: fourth.below,
    };
    let last = n - 1;
    let roots = lead_four(h, below, &a[..last], &b[..last], &c[..last], &d[..last])?;
    let a = children(first.on_left, roots[0], a[last]);
    let b = children(second.on_left, roots[1], b[last]);
    let c = children(third.on_left, roots[2], c[last]);
    let d = children(fourth.on_left, roots[3], d[last]);
    Some(hash_level(h, &[a.0, b.0, c.0, d.0], &[a.1, b.1, c.1, d.1]))
}

// Reports whether the proof of a claim is accepted.
fn accepts_one<T: TreeHash>(h: T, size: u64, root: Hash, claim: &InclusionClaim<'_>) -> bool
    ensures { IsTrue result ↔ AcceptsInclusion
        T.digest_of claim.now.proof.now size root claim.now.index claim.now.leaf }
{
    check_record(h, claim.proof, size, root, claim.index, claim.leaf)
}

// Reports whether the proof of each claim is accepted, one by one.
fn accepts_each<T: TreeHash>(h: T, size: u64, root: Hash, records: &[InclusionClaim<'_>]) -> bool
    ensures { IsTrue result
        ↔ All (λ r. AcceptsInclusion T.digest_of r.proof.now size root r.index r.leaf) records.now }
{
    records
        .iter()
        .all(|claim| accepts_one(h, size, root, claim))
}

// Returns the leaf that a claim is about.
fn lane_of(size: u64, claim: &InclusionClaim<'_>) -> ClaimWalk
    ensures index { result.index ≡ claim.now.index }
    ensures size { result.size ≡ size }
    ensures leaf { result.leaf ≡ claim.now.leaf }
{
    ClaimWalk {
        index: claim.index,
        size,
        leaf: claim.leaf,
    }
}

// Returns the roots that the proofs of four claims lead to, or `None` if their lengths differ or one leads to none.
fn lead_records<T: TreeHash>(
    h: T,
    size: u64,
    a: &InclusionClaim<'_>,
    b: &InclusionClaim<'_>,
    c: &InclusionClaim<'_>,
    d: &InclusionClaim<'_>,
) -> Option<[Hash; 4]>
    ensures a { IfSome result (λ roots. root_from_leaf T.digest_of a.now.index size
        (reverse a.now.proof.now) a.now.leaf ≡ Some (slice_index_or roots 0 [])) }
    ensures b { IfSome result (λ roots. root_from_leaf T.digest_of b.now.index size
        (reverse b.now.proof.now) b.now.leaf ≡ Some (slice_index_or roots 1 [])) }
    ensures c { IfSome result (λ roots. root_from_leaf T.digest_of c.now.index size
        (reverse c.now.proof.now) c.now.leaf ≡ Some (slice_index_or roots 2 [])) }
    ensures d { IfSome result (λ roots. root_from_leaf T.digest_of d.now.index size
        (reverse d.now.proof.now) d.now.leaf ≡ Some (slice_index_or roots 3 [])) }
{
    let n = a.proof.len();
    if b.proof.len() != n || c.proof.len() != n || d.proof.len() != n {
        return None;
    }
    let lanes = Lanes {
        a: lane_of(size, a),
        b: lane_of(size, b),
        c: lane_of(size, c),
        d: lane_of(size, d),
    };
    lead_four(h, lanes, a.proof, b.proof, c.proof, d.proof)
}

// Reports whether an index is among the first `size`, and the root that was found is the given one.
fn reaches(index: u64, size: u64, found: Hash, root: Hash) -> bool
    ensures { IsTrue result ↔ ((index < size) × (found ≡ root)) }
{
    index < size && found == root
}

// Reports whether all four are true.
fn all_four(a: bool, b: bool, c: bool, d: bool) -> bool
    ensures { IsTrue result ↔ (IsTrue a × IsTrue b × IsTrue c × IsTrue d) }
{
    a && b && c && d
}

// Reports whether the proof of each of four claims is accepted.
fn accepts_four<T: TreeHash>(
    h: T,
    size: u64,
    root: Hash,
    a: &InclusionClaim<'_>,
    b: &InclusionClaim<'_>,
    c: &InclusionClaim<'_>,
    d: &InclusionClaim<'_>,
) -> bool
    ensures { IsTrue result ↔ (
        AcceptsInclusion T.digest_of a.now.proof.now size root a.now.index a.now.leaf
        × AcceptsInclusion T.digest_of b.now.proof.now size root b.now.index b.now.leaf
        × AcceptsInclusion T.digest_of c.now.proof.now size root c.now.index c.now.leaf
        × AcceptsInclusion T.digest_of d.now.proof.now size root d.now.index d.now.leaf) }
{
    match lead_records(h, size, a, b, c, d) {
        Some(roots) => all_four(
            reaches(a.index, size, roots[0], root),
            reaches(b.index, size, roots[1], root),
            reaches(c.index, size, roots[2], root),
            reaches(d.index, size, roots[3], root),
        ),
        None => all_four(
            accepts_one(h, size, root, a),
            accepts_one(h, size, root, b),
            accepts_one(h, size, root, c),
            accepts_one(h, size, root, d),
        ),
    }
}

/// Reports whether each proof is accepted for its leaf hash at its index under the root of `size` entries (RFC 6962,
/// section 2.1.1), as `check_record` reports of one. Four proofs of equal length that are next to each other are
/// followed in step, and their nodes hashed four at a time. For an empty list it is true. It allocates nothing, and
/// its recursion is at most 64 calls deep.
pub fn check_records<T: TreeHash>(
    h: T,
    size: u64,
    root: Hash,
    records: &[InclusionClaim<'_>],
) -> bool
    ensures { IsTrue result
        ↔ All (λ r. AcceptsInclusion T.digest_of r.proof.now size root r.index r.leaf) records.now }
{
    let mut left = records;
    while let [first, second, third, fourth, rest @ ..] = left {
        if !accepts_four(h, size, root, first, second, third, fourth) {
            return false;
        }
        left = rest;
    }
    accepts_each(h, size, root, left)
}
