//! The hashes that a growing Merkle tree stores, their numbers, and tree hashes from them, as in Go's `sumdb/tlog`.
//!
//! A log that adds entries stores the hash of each complete subtree once, when its last entry is added, and never
//! changes it. These hashes are numbered in the order in which they are stored. Level 0 has the leaves, and a subtree
//! of level `level` is over 2^`level` entries; `stored_index(level, n)` is the number of the one at place `n` of its
//! level, counted from 0. From them the root of each earlier size, and each proof, can be computed.
//!
//! `HashStore` keeps the hashes in memory. `HashReader` is anything that reads them by their numbers: a `HashStore`,
//! or tiles of a source (`tl_tile`). `tree_hash` computes a root from any reader:
//!
//! ```rust
//! let mut store = HashStore::new(alloc, Sha256Tree);
//! store.append(b"a cat")?;
//! store.append(b"a dog")?;
//! let hashes = store.read(alloc, &[stored_index(0, 1), stored_index(1, 0)])?;
//! assert!(rt; hashes[0] == leaf_hash(Sha256Tree, b"a dog"));
//! assert!(rt; hashes[1] == tree_hash(alloc, Sha256Tree, 2, &store)?);
//! ```
//!
//! A reader has at most 2^62 entries, and a `HashStore` takes up to 2^32 - 1.
#![tactic(auto)]

mod head;
mod index;
mod pushes;
mod quads;
mod reader;
mod segment;
mod store;

pub use head::tree_hash;
pub use index::{split_index, stored_count, stored_index};
pub use reader::{HashReader, ReadFault};
pub use segment::{cover_hash, cover_indexes, segment_indexes};
pub use store::HashStore;
