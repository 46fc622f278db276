//! Hashes of Merkle trees, as transparency logs use them (RFC 6962, section 2.1).
//!
//! A log is a list of entries, which are byte strings. Its root is a hash of the whole list, over a digest function
//! H: of no entries H of no bytes, of one entry H(0x00 || entry), and of more H(0x01 || left || right). There `left`
//! is the hash of the first k entries, `right` that of the others, and k the largest power of two below their number.
//!
//! H is a type with the trait `TreeHash`, and each call takes a value of it first. `Sha256Tree` is SHA-256, which
//! public logs use. `leaf_hash`, `node_hash` and `empty_hash` make one hash, and `entry_root` the root of a list in
//! memory:
//!
//! ```rust
//! let cat = leaf_hash(Sha256Tree, b"a cat");
//! let dog = leaf_hash(Sha256Tree, b"a dog");
//! let mut entries = Vec::new(alloc);
//! entries.push(Vec::from_slice(alloc, b"a cat")?)?;
//! entries.push(Vec::from_slice(alloc, b"a dog")?)?;
//! let root = entry_root(Sha256Tree, &entries);
//! assert!(rt; root == node_hash(Sha256Tree, cat, dog));
//! ```
//!
//! `leaf_hashes`, `hash_level` and `hash_four_nodes` hash many messages. `Sha256Tree` hashes four of them at a time
//! (`tl_lanes`), and so does `entry_root` with parts of a list. Proofs that an entry is in a log, or that a log
//! extends another, are made and checked by `tl_proof`.
#![tactic(auto)]

mod digest;
mod hash;
mod head;
mod leaves;
mod nodes;
mod quarters;
mod split;
mod tree;

pub use digest::{Sha256Tree, TreeHash};
pub use hash::Hash;
pub use head::Head;
pub use leaves::leaf_hashes;
pub use nodes::{hash_four_nodes, hash_level};
pub use split::split_point;
pub use tree::{empty_hash, entry_root, leaf_hash, node_hash};
