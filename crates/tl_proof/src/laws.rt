//! Laws: the proofs are accepted, and accepted proofs show a prefix or a collision.

ghost use Rattle.std.specs.Prelude.{ℕ, ◌<◌, List, [], length, slice_index_or, ◌≤◌, take, ◌≡◌, ◌⊎◌, All};
ghost use Rattle.tl_hash.specs.Bytes.{Bytes, Digest};
ghost use Rattle.tl_hash.specs.Tree.{leaf_input, tree_hash, inputs};
ghost use Rattle.tl_proof.specs.Proofs.{inclusion_proof, consistency_proof};
ghost use Rattle.tl_proof.specs.Acceptance.{AcceptsInclusion, AcceptsConsistency, Step, Linked, EndsWith};
ghost use Rattle.tl_hash.specs.Collision.{Collides};
ghost use Rattle.tl_proof.specs.Collisions.{path_inputs, IsPrefix, Exhibits, audit_inputs};
ghost use Rattle.tl_proof.specs.Laws.{HasHashLength, MadeOfHashes};

/// The inclusion proof of each entry is accepted (RFC 6962, section 2.1.1), for every digest function. It computes
/// nothing: its contract is the law.
pub fn inclusion_law()
    ensures { (H : Digest) (entries : List Bytes) (index : ℕ) → index < length entries
        → AcceptsInclusion H (inclusion_proof H index entries) (length entries)
        (tree_hash H entries) index (H (leaf_input (slice_index_or entries index []))) }
{}

/// If an inclusion proof is accepted for an entry under the root of a list, the entry is that of the list at this
/// index, or two different byte strings, one hashed for the check and one for the list, have one digest. This holds
/// for every digest function with digests of 32 bytes. It computes nothing: its contract is the law.
pub fn inclusion_soundness_law()
    ensures { (H : Digest) → ((message : Bytes) → HasHashLength (H message))
        → (entries : List Bytes) (index : ℕ) (entry : Bytes) (proof : List Bytes)
        → All HasHashLength proof → AcceptsInclusion H proof
        (length entries) (tree_hash H entries) index (H (leaf_input entry))
        → (entry ≡ slice_index_or entries index []) ⊎ ((x : Bytes) × (y : Bytes)
        × Collides H x y (path_inputs H index (length entries) proof entry) (inputs H entries)) }
{}

/// The consistency proof for each prefix is accepted (RFC 6962, section 2.1.2), for every digest function. It
/// computes nothing: its contract is the law.
pub fn consistency_law()
    ensures { (H : Digest) (entries : List Bytes) (old : ℕ)
        → old ≤ length entries → AcceptsConsistency H (consistency_proof H old entries)
        (length entries) (tree_hash H entries) old (tree_hash H (take old entries)) }
{}

/// If accepted consistency proofs lead from the root of one list to the root of another, the first list is a prefix
/// of the second, or two different byte strings out of a named finite list have one digest. This holds for every
/// digest function with digests of 32 bytes. It computes nothing: its contract is the law.
pub fn audit_law()
    ensures { (H : Digest) → ((message : Bytes) → HasHashLength (H message))
        → (old new : List Bytes) (steps : List Step) → All MadeOfHashes steps
        → Linked H (length old) (tree_hash H old) steps
        → EndsWith (length old) (tree_hash H old) steps (length new) (tree_hash H new)
        → IsPrefix old new
        ⊎ ((x : Bytes) × (y : Bytes) × Exhibits H x y (audit_inputs H old new steps)) }
{}
