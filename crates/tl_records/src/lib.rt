//! Checks of many inclusion proofs under one root, four side by side (RFC 6962, section 2.1.1).
//!
//! Somebody who watches a log checks many entries against one checkpoint. `check_records` reports whether all of
//! their proofs are accepted, each as by `check_record` of `tl_proof`. If four proofs next to each other in the list
//! have the same length, it follows them in step and hashes four nodes at a time.
//!
//! A claim says that the entry at an index has a leaf hash. Here `cat_hash` and `dog_hash` are leaf hashes
//! (`leaf_hash`), and `root` is the root of the two entries, from a checkpoint that is trusted:
//!
//! ```rust
//! let proofs = prove_records(alloc, Sha256Tree, 2, &[0, 1], &store)?; // of both entries, from one read
//! let cat = InclusionClaim { index: 0, leaf: cat_hash, proof: &proofs[0] };
//! let dog = InclusionClaim { index: 1, leaf: dog_hash, proof: &proofs[1] };
//! assert!(rt; check_records(Sha256Tree, 2, root, &[cat, dog]));
//! ```
//!
//! Nothing is allocated.
#![tactic(auto)]

mod checking;

pub use checking::{InclusionClaim, check_records};
