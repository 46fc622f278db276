//! Inclusion and consistency proofs of Merkle trees, their checks, and the laws of both (RFC 6962, section 2.1).
//!
//! A log's checkpoint has its size and its root. An inclusion proof shows that an entry is at an index of that tree,
//! and a consistency proof that an older tree is the beginning of a newer one. Each is a short list of hashes, so a
//! client checks it without the log. Whoever has the stored hashes (`tl_store`) makes the proofs, and anybody checks
//! them:
//!
//! ```rust
//! let mut store = HashStore::new(alloc, Sha256Tree);
//! store.append(b"a cat")?;
//! let old_root = tree_hash(alloc, Sha256Tree, 1, &store)?;
//! store.append(b"a dog")?;
//! let root = tree_hash(alloc, Sha256Tree, 2, &store)?;
//!
//! let proof = prove_record(alloc, Sha256Tree, 2, 1, &store)?; // the entry at index 1 of 2
//! assert!(rt; check_record(Sha256Tree, &proof, 2, root, 1, leaf_hash(Sha256Tree, b"a dog")));
//!
//! let proof = prove_tree(alloc, Sha256Tree, 2, 1, &store)?; // from one entry to two
//! assert!(rt; check_tree(Sha256Tree, &proof, 2, root, 1, old_root));
//! assert!(rt; !check_tree(Sha256Tree, &proof, 2, root, 1, root));
//! ```
//!
//! The size and the root come first in a check, then the older size and root or the index and leaf hash. They must
//! come from checkpoints that are trusted. `prove_records` makes many inclusion proofs from one read.
//!
//! `audit_tree` and `audit_chain` have both lists of entries and accepted proofs between them. They report that the
//! new list extends the old one, or show two different byte strings with one digest. The laws in `laws` say that this
//! is always so.
#![tactic(auto)]

mod audit;
mod check;
mod fault;
pub mod laws;
mod link;
mod plan;
mod prove;
mod read;
mod verdict;

pub use audit::{audit_chain, audit_tree};
pub use check::{check_record, check_tree};
pub use fault::ProveFault;
pub use link::{HashList, Link};
pub use prove::{prove_record, prove_records, prove_tree};
pub use verdict::{AuditFault, Verdict};
